// What is known before the first round.
ghost use Rattle.std.specs.Prelude.{◌≡◌};
ghost use Rattle.automata.specs.TargetBody.{target_of};
ghost use Rattle.relaxation.specs.Inner.Pairs.{pair_count};
ghost use Rattle.relaxation.specs.Inner.Relaxation.{Relaxed};
ghost use Rattle.rounds.specs.Inner.Begun.{Stayed, EmptyInside};

use crate::progress::Progress;
use automata::target::MOST_STATES;
use relaxation::elements::Elements;
use relaxation::found::Found;
use relaxation::pairs::{PAIRS, insert};

// Each pair of one of the n target states leads to itself over nothing.
pub fn stay(found: &mut Found, progress: &mut Progress, n: usize)
    ensures stayed { Stayed n found.old.lengths found.old.known progress.old.settled progress.old.into
        found.new.lengths found.new.known progress.new.settled progress.new.into }
    ensures others { (found.new.least ≡ found.old.least) × (progress.new.fresh ≡ progress.old.fresh) }
{
    for x in 0..PAIRS {
        if x % MOST_STATES < n {
            found.lengths[PAIRS * x + x] = 0;
            insert(&mut found.known, x, x);
            insert(&mut progress.settled, x, x);
            insert(&mut progress.into, x, x);
        }
    }
}

// The elements with nothing within them.
pub fn use_empty(elements: Elements, found: &mut Found)
    ensures { Relaxed 1 (EmptyInside (target_of elements.entry.target.bytes.now) elements.entry.links.now pair_count)
        found.old found.new }
{
    let n = elements.target.states();
    for y in 0..PAIRS {
        if y % MOST_STATES < n {
            found.around(elements, y, y / MOST_STATES, 1 << (y % MOST_STATES), 1);
        }
    }
}
