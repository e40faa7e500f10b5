// Rows are settled: everything of a row that has the length of the round.
ghost use Rattle.std.specs.Prelude.{◌≡◌, ◌<◌};
ghost use Rattle.relaxation.specs.Inner.Pairs.{pair_count};
ghost use Rattle.rounds.specs.Inner.Settled.{RowSettled, RowsSettled, LeastOfRows};

use crate::progress::Progress;
use automata::reply::MOST_REPLY_STATES;
use relaxation::found::Found;
use relaxation::pairs::{PAIRS, insert, is_member};
use relaxation::relax::NO_LENGTH;

impl Progress {
    // Settles every length of row x that is l: it becomes a member of what is settled, known and new. The row's least length is that of the
    // others.
    fn settle_row(&mut self, found: &mut Found, x: usize, l: u16)
        requires { x < pair_count }
        ensures settled { RowSettled found.old.lengths x l
            found.old.least self.old.settled found.old.known self.old.fresh
            found.new.least self.new.settled found.new.known self.new.fresh }
        ensures others { (found.new.lengths ≡ found.old.lengths) × (self.new.into ≡ self.old.into) }
    {
        let mut left = NO_LENGTH;
        for z in 0..PAIRS {
            let k = found.lengths[PAIRS * x + z];
            // Most lengths fail both tests: one test of the two together would take a fifth longer.
            if k == l {
                if !is_member(&self.settled, x, z) {
                    insert(&mut self.settled, x, z);
                    insert(&mut found.known, x, z);
                    insert(&mut self.fresh, x, z);
                }
            } else if k < left {
                if !is_member(&self.settled, x, z) {
                    left = k;
                }
            }
        }
        found.least[x] = left;
    }

    // Settles every row whose least length is l, and notes it in the set of 0 in `rows`.
    pub fn settle_rows(&mut self, found: &mut Found, rows: &mut [u32; MOST_REPLY_STATES], l: u16)
        ensures settled { RowsSettled found.old.lengths pair_count l
            found.old.least self.old.settled found.old.known self.old.fresh
            found.new.least self.new.settled found.new.known self.new.fresh rows.old rows.new }
        ensures others { (found.new.lengths ≡ found.old.lengths) × (self.new.into ≡ self.old.into) }
    {
        for x in 0..PAIRS {
            if found.least[x] == l {
                self.settle_row(found, x, l);
                insert(rows, 0, x);
            }
        }
    }
}

// The least length that is not settled, of all rows; none where nothing is left.
pub fn least_row(least: &[u16; PAIRS]) -> Option<u16>
    ensures { LeastOfRows least.now result }
{
    let mut l = NO_LENGTH;
    for k in least {
        l = l.min(*k);
    }
    if l == NO_LENGTH { None } else { Some(l) }
}
