// The refusals of a call with a play that fits, in their order (SPEC 7.3).
ghost use Rattle.std.specs.Prelude.{◌<◌};
ghost use Rattle.words.specs.Tag.{tag_bytes, tag_of};
ghost use Rattle.contents.specs.Contents.{record_bytes};
ghost use Rattle.job.specs.Refusal.{first_of};
ghost use Rattle.job.specs.RefusalNumber.{RefusedBy};
ghost use Rattle.game.specs.Job.{game_of, record_of};
ghost use Rattle.play.specs.MoveRules.{tag_rules};
ghost use Rattle.play.specs.Inner.MoveParts.{FormsFor, call_of, refusal_of};
ghost use Rattle.play.specs.Play.{PlayFits};

use crate::piece::piece_of;
use crate::{Call, Play};
use fetching::refusal::fetch_refusal;
use job::accepted_file::Accepted;
use job::refusal::Refusal;

// The refusals that only a fetch can get: by the next tag's byte. The forms are a parameter beside the file, as a read has none compiled.
fn reply_refusal<'a>(
    file: Accepted<'a>,
    forms: &'a [u64],
    b: u8,
    call: Call<'a>,
) -> Result<(), Refusal>
    requires { FormsFor file.file.now (call_of call) forms.now × (b < tag_bytes) }
    ensures { RefusedBy (first_of (tag_rules (game_of file.entry.file.now) (tag_of b) (call_of call.entry))) result }
{
    match call {
        Call::Read => Ok(()),
        Call::Fetch(reply) => fetch_refusal(file, forms, b, reply),
    }
}

impl Play {
    // The refusal of a call on an accepted file, with a buffer of so many bytes; for a fetch the forms' relations are lent.
    pub fn refusal<'a>(
        self,
        file: Accepted<'a>,
        forms: &'a [u64],
        call: Call<'a>,
        room: usize,
    ) -> Result<(), Refusal>
        requires { PlayFits (game_of file.file.now).target (record_of file.file.now) self
            × FormsFor file.file.now (call_of call) forms.now }
        ensures { RefusedBy (refusal_of (game_of file.entry.file.now) (record_bytes file.entry.file.now) self (call_of call.entry) room)
            result }
    {
        if room < self.count {
            return Err(Refusal::Play);
        }
        let record = file.record();
        let position = self.position;
        if position == record.len() {
            return Err(Refusal::AtEnd);
        }
        reply_refusal(file, forms, record[position], call)?;
        let added = piece_of(record, call, position);
        if room - self.piece_offset(call) < added.len() {
            return Err(Refusal::Buffer);
        }
        Ok(())
    }
}
