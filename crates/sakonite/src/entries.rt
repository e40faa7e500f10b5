// The entries: five that take any bytes whatever (SPEC 8.5 to 8.9, 13.8), and the version. The crate `sakonite_c` exports them to C, so
// each answers with a number, of which refusals have their part.
ghost use Rattle.std.specs.Prelude.{◌≡◌};
ghost use Rattle.job.specs.File.{file_refusal};
ghost use Rattle.game.specs.Verdict.{VerdictOf};
ghost use Rattle.sakonite.specs.Entries.{AdviceAfter, FinishedAfter, version};
ghost use Rattle.sakonite.specs.LosingAfter.{LosingReplyAfter};
ghost use Rattle.sakonite.specs.Inner.Loaded.{LoadedAfter, FinishedCount};

use crate::moves::{judge_moves, play_moves};
use job::loader::load;
use job::refusal::Refusal;
use play_advice::advice_on;
use play_advice::fitted::Fitted;
use play_losing::{LENGTH_BASE, losing_number, losing_on};
use solver::verdict::of_file;

// More room than any history of an accepted file needs: SPEC 8.12 asks that advice judges moves as in buffers that are long enough, so that
// it never meets the refusal `Buffer`.
const AMPLE: usize = 0x1_0000_0000;

// 0.5.0, with two digits each for the second and the third.
const VERSION: u32 = 500;

// The play after a history with its file, judged with ample room; or the first refusal.
fn load_after<'a>(file: &'a [u8], history: &'a [u8]) -> Result<Fitted<'a>, Refusal>
    ensures { LoadedAfter file.now history.now result }
{
    let job = load(file)?;
    let accepted = job.accepted(file);
    let play = judge_moves(accepted, history, AMPLE)?;
    Ok(Fitted {
        play,
        file: accepted,
        effects: job.effects,
    })
}

// How much is finished after a history, all of it in the buffer; or the first refusal, which writes nothing.
fn finish<'a>(file: &'a [u8], history: &'a [u8], buffer: &mut [u8]) -> Result<usize, Refusal>
    ensures { FinishedCount file.now history.now buffer.old result buffer.new }
{
    let job = load(file)?;
    let accepted = job.accepted(file);
    let play = judge_moves(accepted, history, buffer.len())?;
    play_moves(accepted, history, buffer);
    Ok(play.count)
}

// 0, or the file's refusal.
pub fn sakonite_check(file: &[u8]) -> u32
    ensures { result ≡ file_refusal file.now }
{
    load(file).map_or_else(u32::from, |_| 0)
}

// 1 for yes, 0 for no, or the file's refusal.
pub fn sakonite_verdict(file: &[u8]) -> u32
    ensures { VerdictOf file.now result }
{
    of_file(file).map_or_else(u32::from, u32::from)
}

// The advice after a history: 0 to 4, or a refusal.
pub fn sakonite_advice<'a>(file: &'a [u8], history: &'a [u8]) -> u32
    ensures { AdviceAfter file.now history.now result }
{
    load_after(file, history)
        .map(advice_on)
        .map_or_else(u32::from, u32::from)
}

// The finished part after a history, in the buffer: 100 plus its length, or a refusal, which writes nothing.
pub fn sakonite_finished<'a>(file: &'a [u8], history: &'a [u8], buffer: &mut [u8]) -> usize
    ensures { FinishedAfter file.now history.now buffer.old result buffer.new }
{
    match finish(file, history, buffer) {
        Ok(count) => LENGTH_BASE + count,
        Err(refusal) => u32::from(refusal) as usize,
    }
}

// The reply that loses the play after a history, in the buffer: 100 plus its length, 0 for none, or a refusal, which writes nothing.
pub fn sakonite_losing_reply<'a>(file: &'a [u8], history: &'a [u8], buffer: &mut [u8]) -> usize
    ensures { LosingReplyAfter file.now history.now buffer.old result buffer.new }
{
    match load_after(file, history) {
        Ok(fitted) => losing_number(losing_on(fitted, buffer)),
        Err(refusal) => u32::from(refusal) as usize,
    }
}

// The library's version (SPEC 14.17).
pub fn sakonite_version() -> u32
    ensures { result ≡ version }
{
    VERSION
}
