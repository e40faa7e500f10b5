// Plays: the two moves, and what is for anyone, with any file.
#![tactic(auto)]

ghost use Rattle.std.specs.Prelude.{◌≡◌};

pub mod entries;
pub mod fits;
pub mod moves;
pub mod past;
pub mod piece;
pub mod refusal;

use advice::{KeptStates, PLAY_SLOTS};

// A call for a move: read, or fetch with any bytes for a reply.
#[derive(Clone, Copy)]
pub enum Call<'a> {
    Read,
    Fetch(&'a [u8]),
}

// Anyone may make one, with any contents: whether it fits is judged by the refusal `Play`.
#[derive(Clone, Copy)]
pub struct Play {
    // How many tags of the record are used up.
    pub position: usize,
    // The state to which the finished part takes the target.
    pub state: usize,
    // How many bytes are finished.
    pub count: usize,
    // How many elements are open, and for each, from the outermost inwards, the state kept at its opening tag, and its begin, what the
    // finished count was before that tag. SPEC 3.9 and 7.21 ask for four places of each, the unused ones zero; since anyone may make a
    // play, they are public.
    pub depth: usize,
    pub kept: [usize; PLAY_SLOTS],
    pub begins: [usize; PLAY_SLOTS],
}

impl Play {
    // The states kept at the opening tags of what is open.
    pub fn kept_states(self) -> KeptStates
        ensures { (result.states ≡ self.kept) × (result.depth ≡ self.depth) }
    {
        let states = self.kept;
        KeptStates {
            states,
            depth: self.depth,
        }
    }
}
