// A history: the moves that a host has made, as bytes (SPEC 8.10).
ghost use Rattle.std.specs.Prelude.{◌≡◌, true, ◌↔◌};
ghost use Rattle.std.specs.Iterator.{YieldsFirstBy, item_count};
ghost use Rattle.play.specs.Inner.MoveParts.{call_of};
ghost use Rattle.sakonite.specs.History.{written, IsHistory};
ghost use Rattle.sakonite.specs.Entries.{calls_of};
ghost use Rattle.sakonite.specs.Inner.CallsTaken.{StepAt};

use play::Call;
use words::numbers::read_two;

pub const READ: u8 = 0x20;

pub const FETCH: u8 = 0x21;

// The bytes of a reply's length.
const LENGTH: usize = 2;

// The first call of some bytes, and the bytes after it.
#[derive(Clone, Copy)]
pub struct Step<'a> {
    pub call: Call<'a>,
    pub rest: &'a [u8],
}

// The first call. Bytes that begin with none are empty, or no history.
pub fn first_step<'a>(bytes: &'a [u8]) -> Option<Step<'a>>
    ensures { StepAt bytes.now result }
{
    let (kind, behind) = bytes.split_first()?;
    match *kind {
        READ => Some(Step {
            call: Call::Read,
            rest: behind,
        }),
        FETCH => {
            let (length, replies) = behind.split_at_checked(LENGTH)?;
            let (reply, rest) = replies.split_at_checked(read_two(length, 0))?;
            Some(Step {
                call: Call::Fetch(reply),
                rest,
            })
        }
        _ => None,
    }
}

// Whether the bytes are a history; the refusal `History` is given to others (SPEC 7.20).
pub fn is_history(history: &[u8]) -> bool
    ensures { (result ≡ true) ↔ IsHistory history.now }
{
    let mut rest = history;
    while let Some(step) = first_step(rest) {
        rest = step.rest;
    }
    rest.is_empty()
}

// The calls that are left of a history: its bytes are those that they are written as.
#[derive(Clone, Copy)]
pub struct Calls<'a> {
    pub rest: &'a [u8],
    pub ghost are_written: { written (calls_of rest.now) ≡ rest.now },
}

impl<'a> Iterator for Calls<'a> {
    type Item = Call<'a>;

    ghost next_gives = { YieldsFirstBy call_of (λ calls. calls_of calls.rest.now) };

    ghost remaining = { item_count (λ calls. calls_of calls.rest.now) };

    fn next(&mut self) -> Option<Call<'a>> {
        let step = first_step(self.rest)?;
        self.rest = step.rest;
        Some(step.call)
    }
}
