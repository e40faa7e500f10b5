// The reply that loses a play (SPEC 13): for anyone, with any file, any play and any buffer.
#![tactic(auto)]

ghost use Rattle.std.specs.Prelude.{◌≡◌};
ghost use Rattle.play_losing.specs.LosingAnswer.{FetchAsked, LosingReplyOf, losing_number};
ghost use Rattle.play_losing.specs.Inner.Outcome.{FoundAt, answer_of, ReplyCounted};

use effects::Shortest;
use fetching::refusal::may_fetch;
use job::refusal::Refusal;
use losing::losing_from;
use play::Play;
use play_advice::fitted::Fitted;
use play_advice::fitted_for;
use solver::Solver;
use words::tag::code_of;

// What is added to a length, so that the number is no refusal's (SPEC 8.9, 13.8).
pub const LENGTH_BASE: usize = 100;

// What is answered, as one number: 0 where fetching keeps the play won, the losing reply's length raised, or the refusal's number. It is
// for C and for the program `any_play` (SPEC 13.8).
pub fn losing_number(answer: Result<Option<usize>, Refusal>) -> usize
    requires { ReplyCounted answer }
    ensures { result ≡ losing_number answer }
{
    match answer {
        Ok(None) => 0,
        Ok(Some(tags)) => LENGTH_BASE + tags,
        Err(refusal) => u32::from(refusal) as usize,
    }
}

// The answer by what was found, with room for so many bytes.
fn answer_of(found: Shortest, room: usize) -> Result<Option<usize>, Refusal>
    ensures { result ≡ answer_of found room }
{
    match found {
        Shortest::Unreached => Ok(None),
        Shortest::Tags(n) => {
            if room < n {
                Err(Refusal::NoRoom)
            } else {
                Ok(Some(n))
            }
        }
        Shortest::Longer => Err(Refusal::TooLong),
    }
}

// What a fetch comes to where one is allowed: the losing reply is written where the buffer has room.
fn fetch_outcome(fitted: Fitted, buffer: &mut [u8]) -> Shortest
    requires { FetchAsked fitted.file.file.now fitted.play }
    ensures { FoundAt fitted.entry.file.file.now fitted.entry.play buffer.old result buffer.new }
{
    let sets = fitted.effects.table();
    let solver = Solver {
        target: fitted.file.target(),
        sets: &sets,
    };
    let p = fitted.play;
    let record = fitted.file.record();
    let form = fitted.file.form(code_of(record[p.position]));
    losing_from(
        solver,
        form,
        &record[p.position + 1..],
        p.kept_states(),
        buffer,
    )
}

// The losing reply on an accepted file for a play that fits.
pub fn losing_on(fitted: Fitted, buffer: &mut [u8]) -> Result<Option<usize>, Refusal>
    ensures { LosingReplyOf fitted.entry.file.file.now fitted.entry.play buffer.old result buffer.new }
{
    let record = fitted.file.record();
    let position = fitted.play.position;
    if position == record.len() {
        return Err(Refusal::AtEnd);
    }
    if !may_fetch(record[position]) {
        return Err(Refusal::NoFetch);
    }
    let found = fetch_outcome(fitted, buffer);
    answer_of(found, buffer.len())
}

// The losing reply, from the buffer's first byte on: see LosingReplyOf.
pub fn losing_reply(p: Play, file: &[u8], buffer: &mut [u8]) -> Result<Option<usize>, Refusal>
    ensures { LosingReplyOf file.now p buffer.old result buffer.new }
{
    let fitted = fitted_for(p, file)?;
    losing_on(fitted, buffer)
}
