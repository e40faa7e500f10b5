// The job of a file: its refusal, or what it gives.
#![tactic(auto)]

pub mod accepted_file;
pub mod loader;
pub mod refusal;
