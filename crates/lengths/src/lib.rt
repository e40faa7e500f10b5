// Least lengths: with how few elements a forest can lead from one pair of a form state and a target state to another (SPEC 2.12).
#![tactic(auto)]

pub mod form;
pub mod search;
