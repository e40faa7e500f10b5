// The two moves, for anyone, with any file, any play and any buffer (SPEC 8.4). The file is loaded, and its own refusals come first.
ghost use Rattle.std.specs.Prelude.{◌≡◌, replicate};
ghost use Rattle.fetching.specs.Inner.Forms.{form_relations};
ghost use Rattle.play.specs.Entries.{MoveOf};
ghost use Rattle.play.specs.Moves.{MoveCall};
ghost use Rattle.play.specs.Inner.MoveParts.{call_of, FormsFor};
ghost use Rattle.play.specs.Inner.MoveMade.{MoveMade};
ghost use Rattle.play.specs.Play.{play_in, nowhere};

use crate::fits::play_fits;
use crate::moves::Moved;
use crate::{Call, Play};
use advice::PLAY_SLOTS;
use fetching::forms::{FORM_RELATIONS, compile_forms};
use job::accepted_file::Accepted;
use job::loader::load;
use job::refusal::Refusal;

// The forms' relations, which only a fetch needs, written into a table of zeros.
fn compile_for(file: Accepted, call: Call, table: &mut [u64])
    requires { table.old ≡ replicate form_relations 0 }
    ensures { FormsFor file.entry.file.now (call_of call.entry) table.new }
{
    match call {
        Call::Read => {}
        Call::Fetch(_) => compile_forms(file, table),
    }
}

impl Play {
    // At the start of a target's run, in a state: nothing finished, nothing open.
    pub fn in_state(state: usize) -> Play
        ensures { result ≡ play_in state }
    {
        Play {
            position: 0,
            state,
            count: 0,
            depth: 0,
            kept: [0; PLAY_SLOTS],
            begins: [0; PLAY_SLOTS],
        }
    }

    // The play that is given where there is no record.
    pub fn nowhere() -> Play
        ensures { result ≡ nowhere }
    {
        Play::in_state(0)
    }

    // The play after a call, whose piece is written if it is not refused.
    fn made<'a>(self, file: &'a [u8], call: Call<'a>, buffer: &mut [u8]) -> Result<Play, Refusal>
        ensures { MoveMade file.now self (call_of call.entry) buffer.old result buffer.new }
    {
        let job = load(file)?;
        let accepted = job.accepted(file);
        let record = accepted.record();
        if !play_fits(self, accepted.target(), record) {
            return Err(Refusal::Play);
        }
        let mut forms = [0u64; FORM_RELATIONS];
        compile_for(accepted, call, &mut forms);
        let play = self.judged(accepted, &forms, call, buffer.len())?;
        self.write(record, call, buffer);
        Ok(play)
    }

    // A call, read or fetch, with a buffer.
    fn call<'a>(self, file: &'a [u8], call: Call<'a>, buffer: &mut [u8]) -> Moved
        ensures { MoveOf file.now self (call_of call.entry) buffer.old result buffer.new }
    {
        match self.made(file, call, buffer) {
            Ok(play) => Moved {
                play,
                answer: Ok(()),
            },
            Err(e) => Moved {
                play: self,
                answer: Err(e),
            },
        }
    }

    // Read the next tag.
    pub fn read(self, file: &[u8], buffer: &mut [u8]) -> Moved
        ensures { MoveOf file.now self MoveCall.to_read buffer.old result buffer.new }
    {
        self.call(file, Call::Read, buffer)
    }

    // Fetch at a closing tag: the reply stands for the newest open element.
    pub fn fetch<'a>(self, file: &'a [u8], reply: &'a [u8], buffer: &mut [u8]) -> Moved
        ensures { MoveOf file.now self (MoveCall.to_fetch reply.now) buffer.old result buffer.new }
    {
        self.call(file, Call::Fetch(reply), buffer)
    }
}
