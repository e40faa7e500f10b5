// Bodies of targets and of reply forms: whether bytes are one, what they hold, and a target's runs.
#![tactic(auto)]

pub mod bits;
pub mod reply;
pub mod target;
