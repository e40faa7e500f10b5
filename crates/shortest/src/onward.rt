// The goals of what follows an element.
ghost use Rattle.std.specs.Prelude.{◌≡◌, ◌<◌};
ghost use Rattle.automata.specs.TargetBody.{most_states};
ghost use Rattle.automata.specs.Inner.FormState.{IsFormState};
ghost use Rattle.relaxation.specs.Inner.Pairs.{pair_of};
ghost use Rattle.relaxation.specs.Inner.PairSet.{Member, Gains};
ghost use Rattle.shortest.specs.Inner.Stops.{GoesOver};
ghost use Rattle.shortest.specs.Inner.Insides.{OnwardOf};

use crate::sets::{PairSets, STATE_PAIRS};
use crate::tables::Lengths;
use automata::reply::MOST_REPLY_STATES;
use automata::target::MOST_STATES;
use replies::relation::has_pair;

// The goals of p whose shortest way from target state q goes on from s and target state t after e elements are goals of s.
fn keep_goals(
    lengths: Lengths,
    goals: &PairSets,
    q: usize,
    p: usize,
    s: usize,
    t: usize,
    e: usize,
    next: &mut PairSets,
)
    requires { (q < most_states) × IsFormState p × IsFormState s × (t < most_states) × (e < 65536) }
    ensures { Gains next.old.masks next.new.masks (λ s' z. (s' ≡ s) × Member goals.now.masks p z
        × GoesOver lengths.entry.table.now (pair_of p q) (pair_of s t) z e) }
{
    let x = MOST_STATES * p + q;
    let y = MOST_STATES * s + t;
    for z in goals.of(p) {
        if lengths.goes_over(x, y, z, e) {
            next.insert(s, z);
        }
    }
}

// The goals after an element of e elements that relates form states and leads from target state q to t.
pub fn find_onward(
    lengths: Lengths,
    goals: &PairSets,
    q: usize,
    relation: u64,
    t: usize,
    e: usize,
    next: &mut PairSets,
)
    requires { (q < most_states) × (t < most_states) × (e < 65536) }
    ensures { Gains next.old.masks next.new.masks
        (OnwardOf lengths.entry.table.now goals.now.masks q relation t e) }
{
    for i in 0..STATE_PAIRS {
        if has_pair(relation, i) {
            keep_goals(
                lengths,
                goals,
                q,
                i / MOST_REPLY_STATES,
                i % MOST_REPLY_STATES,
                t,
                e,
                next,
            );
        }
    }
}
