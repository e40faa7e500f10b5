// The moves of a history: all are judged before any is made in a buffer, so that a refusal writes nothing (SPEC 8.14).
ghost use Rattle.std.specs.Prelude.{◌≡◌};
ghost use Rattle.play_advice.specs.Start.{file_start};
ghost use Rattle.fetching.specs.Inner.Forms.{FormsOf};
ghost use Rattle.sakonite.specs.Played.{buffer_after};
ghost use Rattle.sakonite.specs.Entries.{calls_of, finished_refusal};
ghost use Rattle.sakonite.specs.Inner.CallsTaken.{HistoryJudged, HistoryPlayed};

use crate::history::{Calls, is_history};
use fetching::forms::{FORM_RELATIONS, compile_forms};
use job::accepted_file::Accepted;
use job::refusal::Refusal;
use play::Play;
use play_advice::begun;

// The play after all calls, or the first refusal, with the forms' relations lent: nothing is written.
fn judge_each<'a>(
    file: Accepted<'a>,
    forms: &'a [u64],
    calls: Calls<'a>,
    room: usize,
) -> Result<Play, Refusal>
    requires { FormsOf file.file.now forms.now }
    ensures { HistoryJudged file.entry.file.now calls.entry.rest.now room result }
{
    let target = file.target();
    let record = file.record();
    let mut play = begun(target);
    // What `Play::judged` does, in two steps: a result of a play would be copied at each call, a fifth of the time of many reads.
    for call in calls {
        play.refusal(file, forms, call, room)?;
        play = play.after_move(target, record, call);
    }
    Ok(play)
}

// The play after any bytes as a history of an accepted file, or the first refusal, `History` before those of its moves. Each form is
// compiled once.
pub fn judge_moves<'a>(file: Accepted<'a>, history: &'a [u8], room: usize) -> Result<Play, Refusal>
    ensures { HistoryPlayed file.entry.file.now history.now room result }
{
    if !is_history(history) {
        return Err(Refusal::History);
    }
    let mut forms = [0u64; FORM_RELATIONS];
    compile_forms(file, &mut forms);
    judge_each(file, &forms, Calls { rest: history }, room)
}

// All moves, each of which is accepted, one after another in the buffer. They were judged, so no state is looked at.
pub fn play_moves<'a>(file: Accepted<'a>, history: &'a [u8], buffer: &mut [u8])
    requires { finished_refusal file.file.now history.now buffer.old ≡ 0 }
    ensures { buffer.new ≡
        buffer_after file.entry.file.now (file_start file.entry.file.now) buffer.old (calls_of history.now) }
{
    let record = file.record();
    // At the record's start, in any state: none is looked at.
    let mut play = Play::in_state(0);
    for call in (Calls { rest: history }) {
        play = play.made_stateless(record, call, buffer);
    }
}
