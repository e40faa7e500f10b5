// The tables of the search for least lengths.
use crate::pairs::{LENGTHS, MASKS, PAIRS};

// What is found so far: for each two pairs the least length; for each pair the least length that is not settled yet; and which lengths can
// fall no more. Who makes one writes it down as a literal: as the result of a function it would be on the stack twice.
#[derive(Drop)]
pub struct Found {
    pub lengths: [u16; LENGTHS],
    pub least: [u16; PAIRS],
    pub known: [u32; MASKS],
}
