// The library: histories, their moves, and the entries.
#![tactic(auto)]

pub mod entries;
mod history;
mod moves;
