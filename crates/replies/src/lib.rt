// Replies of a form: which of its rules belong together, and which words are lawful (SPEC 2.6 to 2.8).
#![tactic(auto)]

pub mod lawful;
pub mod links;
pub mod relation;
pub mod transitions;
