// One call, read or fetch: judged, or made in a buffer once it was judged.
ghost use Rattle.std.specs.Prelude.{◌≡◌, length, ◌≤◌};
ghost use Rattle.automata.specs.Target.{Target};
ghost use Rattle.game.specs.Job.{game_of, record_of};
ghost use Rattle.play.specs.Moves.{count_after, moved, with_piece};
ghost use Rattle.play.specs.Play.{PlayFits};
ghost use Rattle.play.specs.Inner.MoveParts.{Writable, with_state, MoveJudged, FormsFor, call_of};

use crate::{Call, Play};
use job::accepted_file::Accepted;
use job::refusal::Refusal;

// The play after a move with what is answered: that it is accepted, or its refusal, and then the play is as it came. SPEC 8.1 and 11.6 ask
// for a play with each answer, so that this is no `Result` of a play.
#[derive(Clone, Copy)]
pub struct Moved {
    pub play: Play,
    pub answer: Result<(), Refusal>,
}

impl Play {
    // A call on an accepted file with a play that fits and room for so many bytes, judged: nothing is written. For a fetch the forms'
    // relations are lent.
    pub fn judged<'a>(
        self,
        file: Accepted<'a>,
        forms: &'a [u64],
        call: Call<'a>,
        room: usize,
    ) -> Result<Play, Refusal>
        requires { PlayFits (game_of file.file.now).target (record_of file.file.now) self
            × FormsFor file.file.now (call_of call) forms.now }
        ensures { MoveJudged file.entry.file.now self (call_of call.entry) room result }
    {
        self.refusal(file, forms, call, room)?;
        Ok(self.after_move(file.target(), file.record(), call))
    }

    // An accepted call made in a buffer with no state looked at, so that the target need not run: the bytes do not depend on states. The
    // play given back is in state 0.
    pub fn made_stateless<'a>(self, record: &'a [u8], call: Call<'a>, buffer: &mut [u8]) -> Play
        requires { Writable «record».now self (call_of call) × (count_after self (call_of call) ≤ length buffer.old) }
        ensures { ((A : Target) → result ≡ with_state 0 (moved A «record».now self (call_of call.entry)))
            × (buffer.new ≡ with_piece «record».now self (call_of call.entry) buffer.old) }
    {
        self.write(record, call, buffer);
        self.stateless_after(record, call)
    }
}
