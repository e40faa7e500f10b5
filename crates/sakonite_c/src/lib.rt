// The library for C: each entry of `sakonite`, with its contract, under its name. They stand twice for the C interface: a crate is a
// library for other crates or a static one for C, not both.
#![tactic(auto)]

ghost use Rattle.std.specs.Prelude.{◌≡◌};
ghost use Rattle.job.specs.File.{file_refusal};
ghost use Rattle.game.specs.Verdict.{VerdictOf};
ghost use Rattle.sakonite.specs.Entries.{AdviceAfter, FinishedAfter, version};
ghost use Rattle.sakonite.specs.LosingAfter.{LosingReplyAfter};

use sakonite::entries;

// 0, or the file's refusal.
#[unsafe(no_mangle)]
pub extern "C" fn sakonite_check(file: &[u8]) -> u32
    ensures { result ≡ file_refusal file.now }
{
    entries::sakonite_check(file)
}

// 1 for yes, 0 for no, or the file's refusal.
#[unsafe(no_mangle)]
pub extern "C" fn sakonite_verdict(file: &[u8]) -> u32
    ensures { VerdictOf file.now result }
{
    entries::sakonite_verdict(file)
}

// The advice after a history: 0 to 4, or a refusal.
#[unsafe(no_mangle)]
pub extern "C" fn sakonite_advice<'a>(file: &'a [u8], history: &'a [u8]) -> u32
    ensures { AdviceAfter file.now history.now result }
{
    entries::sakonite_advice(file, history)
}

// The finished part after a history, in the buffer: 100 plus its length, or a refusal, which writes nothing.
#[unsafe(no_mangle)]
pub extern "C" fn sakonite_finished<'a>(
    file: &'a [u8],
    history: &'a [u8],
    buffer: &mut [u8],
) -> usize
    ensures { FinishedAfter file.now history.now buffer.old result buffer.new }
{
    entries::sakonite_finished(file, history, buffer)
}

// The reply that loses the play after a history, in the buffer: 100 plus its length, 0 for none, or a refusal, which writes nothing.
#[unsafe(no_mangle)]
pub extern "C" fn sakonite_losing_reply<'a>(
    file: &'a [u8],
    history: &'a [u8],
    buffer: &mut [u8],
) -> usize
    ensures { LosingReplyAfter file.now history.now buffer.old result buffer.new }
{
    entries::sakonite_losing_reply(file, history, buffer)
}

// The library's version (SPEC 14.17).
#[unsafe(no_mangle)]
pub extern "C" fn sakonite_version() -> u32
    ensures { result ≡ version }
{
    entries::sakonite_version()
}
