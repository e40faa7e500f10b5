// Standard output as a writer of text, for the programs.
#![tactic(auto)]

use std::fmt;
use std::fmt::Write;

const STDOUT_FILENO: i32 = 1;

// What is written goes through C's `write` and nothing else, so that no more has to be trusted; what cannot be written is lost.
#[derive(Clone, Copy)]
pub struct Output;

impl Write for Output {
    fn write_str(&mut self, text: &str) -> fmt::Result {
        io::write_all(STDOUT_FILENO, text.as_bytes());
        Ok(())
    }
}
