// The deposit form's body: its tables are read here and nowhere else.
ghost use Rattle.std.specs.Prelude.{◌≡◌, ℕ, ◌<◌, ◌≤◌, length};
ghost use Rattle.std.proofs.Math.Bool.{decide};
ghost use Rattle.words.specs.Tag.{word_of, IsCode};
ghost use Rattle.automata.specs.Bits.{bit};
ghost use Rattle.automata.specs.Small.{Small};
ghost use Rattle.automata.specs.TargetBody.{most_states, target_of, ValidTarget};
ghost use Rattle.automata.specs.Inner.TargetRead.{StateIs, RunsTo};
ghost use Rattle.automata.specs.Decide.TargetBody.{valid_target?};

use words::bounds::all_below;
use words::numbers::read_four;
use words::stack::Stack;
use words::tag::{CODES, code_of, is_opening};

// The most states of a deposit form (SPEC 2.1).
pub const MOST_STATES: usize = 32;

// n, start and the mask come before the tables.
const TARGET_HEAD: usize = 6;

// The most elements that a reply has open together if it is small enough to arrive (SPEC 5.10).
pub const MOST_REPLY_DEPTH: usize = 64;

// Whether the bytes are a deposit form's body (SPEC 7.13).
pub fn target_ok(body: &[u8]) -> bool
    ensures { result ≡ decide (valid_target? body.now) }
{
    if body.len() < TARGET_HEAD {
        return false;
    }
    let n = usize::from(body[0]);
    1 <= n
        && n <= MOST_STATES
        && body.len() == TARGET_HEAD + CODES * n + CODES * (n * n)
        && usize::from(body[1]) < n
        // The mask has 32 bits; as usize it can be shifted by 32 too.
        && read_four(body, 2) >> n == 0
        && all_below(body, TARGET_HEAD, n)
}

// A deposit form's body: bytes that are one (SPEC 6.6, 7.13).
#[derive(Clone, Copy)]
pub struct TargetBody<'a> {
    pub bytes: &'a [u8],
    pub ghost valid: { ValidTarget bytes.now },
}

impl<'a> TargetBody<'a> {
    // n, the number of states.
    pub fn states(self) -> usize
        ensures { (result ≡ (target_of self.entry.bytes.now).states) × (1 ≤ result) × (result ≤ most_states) }
    {
        usize::from(self.bytes[0])
    }

    pub fn start(self) -> usize
        ensures { StateIs (target_of self.entry.bytes.now) (target_of self.entry.bytes.now).start result }
    {
        usize::from(self.bytes[1])
    }

    // The mask of the accepting states.
    pub fn accepting(self) -> u32
        ensures { (q : ℕ) → bit result q ≡ (target_of self.entry.bytes.now).accepting q }
    {
        // Four bytes fit a u32, so `as` loses nothing, and try_from would have nothing to refuse.
        read_four(self.bytes, 2) as u32
    }

    // Where an opening tag of code c leads from q.
    pub fn open_to(self, q: usize, c: usize) -> usize
        requires { (q < (target_of self.bytes.now).states) × IsCode c }
        ensures { StateIs (target_of self.entry.bytes.now) ((target_of self.entry.bytes.now).open_to q c) result }
    {
        usize::from(self.bytes[TARGET_HEAD + (CODES * q + c)])
    }

    // Where a closing tag of code c leads from r, with q taken back.
    pub fn close_to(self, r: usize, q: usize, c: usize) -> usize
        requires { (r < (target_of self.bytes.now).states) × (q < (target_of self.bytes.now).states) × IsCode c }
        ensures { StateIs (target_of self.entry.bytes.now) ((target_of self.entry.bytes.now).close_to r q c) result }
    {
        let n = usize::from(self.bytes[0]);
        usize::from(self.bytes[TARGET_HEAD + CODES * n + (CODES * (n * r + q) + c)])
    }

    // The state that the run over a well-nested word leads to, the case of an opening tag first (SPEC 11.14).
    pub fn run_over(self, word: &[u8], q: usize) -> usize
        requires { Small word.now × (q < (target_of self.bytes.now).states) }
        ensures { RunsTo (target_of self.entry.bytes.now) (word_of word.now) q result }
    {
        let mut kept = Stack::<MOST_REPLY_DEPTH>::new();
        let mut state = q;
        for &b in word {
            let c = code_of(b);
            if is_opening(b) {
                // The stack is of bytes, and a state is below 32.
                kept.push(state as u8);
                state = self.open_to(state, c);
            } else {
                let back = kept.pop().unwrap();
                state = self.close_to(state, usize::from(back), c);
            }
        }
        state
    }
}
