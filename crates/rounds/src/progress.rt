// How far the search has come.
use relaxation::pairs::MASKS;

// What is settled; for each pair what leads to it and was settled in an earlier round; and what is new in this round.
#[derive(Drop)]
pub struct Progress {
    pub settled: [u32; MASKS],
    pub into: [u32; MASKS],
    pub fresh: [u32; MASKS],
}
