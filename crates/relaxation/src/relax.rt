// Lengths are relaxed: to one candidate, or to a row of sums. A length is a number of elements; LENGTH_CAP stands for itself and
// all above it.
ghost use Rattle.std.specs.Prelude.{◌≡◌, true, ℕ, ◌+◌, ◌<◌, ◌≤◌, length};
ghost use Rattle.automata.specs.Bits.{bit};
ghost use Rattle.automata.specs.TargetBody.{most_states};
ghost use Rattle.automata.specs.Inner.FormState.{IsFormState};
ghost use Rattle.relaxation.specs.Inner.Pairs.{pair_count, pair_of};
ghost use Rattle.relaxation.specs.Inner.PairSet.{mask_count, Member};
ghost use Rattle.relaxation.specs.Inner.Lengths.{length_cap, capped, length_of};
ghost use Rattle.relaxation.specs.Inner.Relaxation.{Firm, Relaxed, One, Sums, Joins, Ends};

use crate::found::Found;
use crate::pairs::{PAIRS, insert};
use automata::bits::states_in;
use automata::reply::MOST_REPLY_STATES;
use automata::target::MOST_STATES;

pub const LENGTH_CAP: u16 = 2049;

// No length: nothing leads there. A number and not an Option, since the tables have 65,536 lengths, and two bytes for each; so the least of
// several is found with no test for it.
pub const NO_LENGTH: u16 = u16::MAX;

// The length of two forests, one after the other.
pub fn sum(a: u16, b: u16) -> u16
    requires { (a ≤ length_cap) × (b ≤ length_cap) }
    ensures { result ≡ capped (a + b) }
{
    (a + b).min(LENGTH_CAP)
}

impl Found {
    // A forest of k elements leads from x to z. What gets length `next` can fall no more.
    pub fn relax(&mut self, x: usize, z: usize, k: u16, next: u16)
        requires { (x < pair_count) × (z < pair_count) × (next ≤ k) }
        ensures { Relaxed next (One x z k) self.old self.new }
    {
        if k < self.lengths[PAIRS * x + z] {
            self.lengths[PAIRS * x + z] = k;
            self.least[x] = self.least[x].min(k);
            if k == next {
                insert(&mut self.known, x, z);
            }
        }
    }

    // From x over y to the pairs of form state r that `mask` has, but for those that are known.
    fn relax_sums(&mut self, x: usize, y: usize, r: usize, mask: u32, next: u16)
        requires firm { Firm next self.old × (x < pair_count) × (y < pair_count) × IsFormState r }
        requires member { Member self.old.known x y
            × ((s : ℕ) → s < most_states → bit mask s ≡ true → length_of self.old.lengths y (pair_of r s) ≤ length_cap) }
        requires by_index { (s : ℕ) → s < most_states → bit mask s ≡ true → ¬ Member self.old.known x (pair_of r s) →
            next ≤ capped (length_of self.old.lengths x y + length_of self.old.lengths y (pair_of r s)) }
        ensures { Relaxed next (Sums self.old.lengths x y r mask) self.old self.new }
    {
        let first = self.lengths[PAIRS * x + y];
        let held = self.known[MOST_REPLY_STATES * x + r];
        let left = (held | mask) ^ held;
        for s in states_in(left) {
            let z = MOST_STATES * r + s;
            let k = sum(first, self.lengths[PAIRS * y + z]);
            self.relax(x, z, k, next);
        }
    }

    // From x over y to every member of the set of y.
    pub fn join(&mut self, members: &[u32], x: usize, y: usize, next: u16)
        requires firm { Firm next self.old × (length members.now ≡ mask_count) × (x < pair_count) × (y < pair_count) }
        requires member { Member self.old.known x y
            × ((z : ℕ) → z < pair_count → Member members.now y z → length_of self.old.lengths y z ≤ length_cap) }
        requires by_index { (z : ℕ) → z < pair_count → Member members.now y z → ¬ Member self.old.known x z →
            next ≤ capped (length_of self.old.lengths x y + length_of self.old.lengths y z) }
        ensures { Relaxed next (Joins self.old.lengths members.now x y) self.old self.new }
    {
        for r in 0..MOST_REPLY_STATES {
            self.relax_sums(x, y, r, members[MOST_REPLY_STATES * y + r], next);
        }
    }

    // A forest of `next` elements leads from x to each pair of form state r that `mask` has. The loop is that of `relax_sums`, but for the
    // length: that of a sum is read from the table that is written, so no closure can be lent it.
    pub fn relax_ends(&mut self, x: usize, r: usize, mask: u32, next: u16)
        requires { (x < pair_count) × IsFormState r }
        ensures { Relaxed next (Ends x r mask next) self.old self.new }
    {
        let held = self.known[MOST_REPLY_STATES * x + r];
        let left = (held | mask) ^ held;
        for s in states_in(left) {
            self.relax(x, MOST_STATES * r + s, next, next);
        }
    }
}
