// A pair is a state of the form and one of the target, side by side, as one number: 32 times the form's and the target's. A set of pairs
// for each pair has a bit for each two.
ghost use Rattle.std.specs.Prelude.{◌≡◌, ◌-◌, ◌<◌, ◌≤◌, length, get_or};
ghost use Rattle.std.specs.Iterator.{at_most};
ghost use Rattle.automata.specs.Bits.{bit};
ghost use Rattle.relaxation.specs.Inner.Pairs.{pair_count, form_part, target_part};
ghost use Rattle.relaxation.specs.Inner.PairSet.{mask_index, NextMember, NextGiven, Gains};
ghost use Rattle.automata.specs.ReplyBody.{most_reply_states};

use automata::bits::{has, states_from, with};
use automata::reply::MOST_REPLY_STATES;
use automata::target::MOST_STATES;

pub const PAIRS: usize = MOST_REPLY_STATES * MOST_STATES;

// A mask of target states for each pair and form state.
pub const MASKS: usize = PAIRS * MOST_REPLY_STATES;

// A length for each two pairs.
pub const LENGTHS: usize = PAIRS * PAIRS;

// Whether z is a member of the set of x.
pub fn is_member(table: &[u32], x: usize, z: usize) -> bool
    requires { (x < pair_count) × (z < pair_count) × (mask_index x (form_part z) < length table.now) }
    ensures { result ≡ bit (get_or table.now (mask_index x (form_part z)) 0) (target_part z) }
{
    has(
        table[MOST_REPLY_STATES * x + z / MOST_STATES],
        z % MOST_STATES,
    )
}

// The members of the set of x, in rising order.
#[derive(Clone, Copy)]
pub struct Members<'a> {
    table: &'a [u32],
    x: usize,
    from: usize,
    ghost inside: { (x < pair_count) × (from ≤ pair_count) × (mask_index x most_reply_states ≤ length table.now) },
}

impl<'a> Iterator for Members<'a> {
    type Item = usize;

    ghost next_gives = { λ old r new. (new.table ≡ old.table) × (new.x ≡ old.x) × NextGiven old.table.now old.x old.from r new.from };

    ghost remaining = { λ s. at_most (pair_count - s.from) };

    // A turn gives a member, or goes to the next mask from wherever in a mask it is.
    fn next(&mut self) -> Option<usize> {
        while self.from < PAIRS {
            let first = MOST_STATES * (self.from / MOST_STATES);
            let mask = self.table[MOST_REPLY_STATES * self.x + self.from / MOST_STATES];
            if let Some(s) = states_from(mask, self.from % MOST_STATES).next() {
                self.from = first + s + 1;
                return Some(first + s);
            }
            self.from = first + MOST_STATES;
        }
        None
    }
}

pub fn members_of<'a>(table: &'a [u32], x: usize) -> Members<'a>
    requires { (x < pair_count) × (mask_index x most_reply_states ≤ length table.now) }
    ensures { (result.table.now ≡ table.now) × (result.x ≡ x) × (result.from ≡ 0) }
{
    Members { table, x, from: 0 }
}

// Puts z into the set of x.
pub fn insert(table: &mut [u32], x: usize, z: usize)
    requires { (x < pair_count) × (z < pair_count) × (mask_index x (form_part z) < length table.old) }
    ensures { Gains table.old table.new (λ x' z'. (x' ≡ x) × (z' ≡ z)) }
{
    let i = MOST_REPLY_STATES * x + z / MOST_STATES;
    table[i] = with(table[i], z % MOST_STATES);
}
