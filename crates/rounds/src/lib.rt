// The parts of a round of the search for least lengths: rows are settled, what is new there is used, and the rows are put aside; and what
// is known before the first round.
#![tactic(auto)]

pub mod beginning;
pub mod forgetting;
pub mod progress;
pub mod settling;
pub mod using;
