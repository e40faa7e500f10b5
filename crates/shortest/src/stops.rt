// Stops: the pairs on a shortest way to a goal, where a first element may end.
ghost use Rattle.std.specs.Prelude.{◌≡◌, true, ◌↔◌, ◌<◌};
ghost use Rattle.automata.specs.TargetBody.{most_states};
ghost use Rattle.automata.specs.Inner.FormState.{IsFormState};
ghost use Rattle.relaxation.specs.Inner.Pairs.{pair_count, pair_of};
ghost use Rattle.relaxation.specs.Inner.PairSet.{Gains};
ghost use Rattle.shortest.specs.Inner.Stops.{OnWay, Stop, StopAt};

use crate::sets::PairSets;
use crate::tables::Lengths;
use automata::reply::MOST_REPLY_STATES;
use automata::target::MOST_STATES;
use relaxation::pairs::PAIRS;
use relaxation::relax::LENGTH_CAP;

// Whether y is on a shortest way from x, the pair of p, to a goal of p.
fn on_way(lengths: Lengths, goals: &PairSets, p: usize, x: usize, y: usize) -> bool
    requires { IsFormState p × (x < pair_count) × (y < pair_count) }
    ensures { (result ≡ true) ↔ OnWay lengths.entry.table.now goals.now.masks p x y }
{
    let k = usize::from(lengths.between(x, y));
    // A loop: its invariant proves it, where `any` would need a proof by hand.
    for z in goals.of(p) {
        if lengths.goes_over(x, y, z, k) {
            return true;
        }
    }
    false
}

// The stops of p.
fn insert_stops(lengths: Lengths, goals: &PairSets, q: usize, p: usize, stops: &mut PairSets)
    requires { (q < most_states) × IsFormState p }
    ensures { Gains stops.old.masks stops.new.masks
        (λ p' y. (p' ≡ p) × Stop lengths.entry.table.now goals.now.masks p (pair_of p q) y) }
{
    let x = MOST_STATES * p + q;
    for y in 0..PAIRS {
        let k = lengths.between(x, y);
        if 0 < k && k < LENGTH_CAP && on_way(lengths, goals, p, x, y) {
            stops.insert(p, y);
        }
    }
}

// The stops of every form state, at target state q.
pub fn find_stops(lengths: Lengths, goals: &PairSets, q: usize, stops: &mut PairSets)
    requires { (q < most_states) }
    ensures { Gains stops.old.masks stops.new.masks
        (StopAt lengths.entry.table.now goals.now.masks q) }
{
    for p in 0..MOST_REPLY_STATES {
        if goals.has_some(p) {
            insert_stops(lengths, goals, q, p, stops);
        }
    }
}
