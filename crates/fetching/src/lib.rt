// Fetching at a tag: whether it is allowed there, and whether its reply is taken (SPEC 7.18, 7.19, 7.23). No play is looked at.
#![tactic(auto)]

pub mod forms;
pub mod refusal;
