// Rows are put aside once what is new there has been used.
ghost use Rattle.std.specs.Prelude.{◌≡◌, ◌<◌};
ghost use Rattle.relaxation.specs.Inner.Pairs.{pair_count};
ghost use Rattle.relaxation.specs.Inner.PairSet.{Member, Gains};
ghost use Rattle.rounds.specs.Inner.Forgotten.{RowsForgotten};

use crate::progress::Progress;
use automata::reply::MOST_REPLY_STATES;
use relaxation::pairs::{MASKS, insert, members_of};

// What is new in row x leads into its ends.
fn turn_row(fresh: &[u32; MASKS], into: &mut [u32; MASKS], x: usize)
    requires { x < pair_count }
    ensures { Gains into.old into.new (λ z' x'. (x' ≡ x) × Member fresh.now x z') }
{
    for z in members_of(fresh, x) {
        insert(into, z, x);
    }
}

impl Progress {
    // Puts row x aside: what was new there leads into its ends, and is new no more.
    fn forget_row(&mut self, x: usize)
        requires { x < pair_count }
        ensures { RowsForgotten (λ x'. x' ≡ x) self.old.fresh self.old.into self.new.fresh self.new.into
            × (self.new.settled ≡ self.old.settled) }
    {
        turn_row(&self.fresh, &mut self.into, x);
        self.fresh[MOST_REPLY_STATES * x..MOST_REPLY_STATES * (x + 1)].fill(0);
    }

    // Puts the rows aside that are noted.
    pub fn forget_rows(&mut self, rows: &[u32; MOST_REPLY_STATES])
        ensures { RowsForgotten (λ x. (x < pair_count) × Member rows.now 0 x) self.old.fresh self.old.into self.new.fresh self.new.into
            × (self.new.settled ≡ self.old.settled) }
    {
        for x in members_of(rows, 0) {
            self.forget_row(x);
        }
    }
}
