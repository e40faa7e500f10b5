// The search for the least lengths of a form, of all forests together, the short ones first. A forest is empty, or one element, or two
// forests one after the other. What is settled is therefore wrapped into elements, and joined with all that is settled before and after
// it. No length that this gives is less than that of the round, and no round changes what an earlier one settled. All lengths above 2,048
// count alike; they are settled last, round after round, until nothing is left, and that finds also what only long replies reach.
ghost use Rattle.std.specs.Prelude.{◌≡◌, replicate};
ghost use Rattle.automata.specs.TargetBody.{target_of};
ghost use Rattle.relaxation.specs.Inner.Lengths.{length_count, no_length};
ghost use Rattle.rounds.specs.Inner.Settled.{LeastRow};
ghost use Rattle.lengths.specs.Inner.Search.{Searched, RoundDone, LeastLengths};

use automata::reply::MOST_REPLY_STATES;
use relaxation::elements::Elements;
use relaxation::found::Found;
use relaxation::pairs::{MASKS, PAIRS};
use relaxation::relax::{NO_LENGTH, sum};
use rounds::beginning::{stay, use_empty};
use rounds::progress::Progress;
use rounds::settling::least_row;

// A round: everything of length l is settled and used.
fn round(elements: Elements, found: &mut Found, progress: &mut Progress, l: u16)
    requires { Searched (target_of elements.target.bytes.now) elements.links.now progress.old.settled progress.old.into
        progress.old.fresh found.old l × LeastRow found.old.least l }
    ensures { RoundDone (target_of elements.entry.target.bytes.now) elements.entry.links.now progress.old.settled
        progress.new.settled progress.new.into progress.new.fresh found.new l }
{
    let mut rows = [0u32; MOST_REPLY_STATES];
    progress.settle_rows(found, &mut rows, l);
    progress.use_rows(elements, found, &rows, sum(l, 1));
    progress.forget_rows(&rows);
}

// Rounds by rising length, until nothing is left.
fn settle(elements: Elements, found: &mut Found, progress: &mut Progress)
    requires { Searched (target_of elements.target.bytes.now) elements.links.now progress.old.settled progress.old.into
        progress.old.fresh found.old 0 }
    ensures { LeastLengths (target_of elements.entry.target.bytes.now) elements.entry.links.now found.new.lengths }
{
    while let Some(l) = least_row(&found.least) {
        round(elements, found, progress, l);
    }
}

// The least lengths of a form, by its links, in a table that has none.
pub fn find_lengths(elements: Elements, found: &mut Found)
    requires { found.old.lengths ≡ replicate length_count no_length }
    ensures { LeastLengths (target_of elements.entry.target.bytes.now) elements.entry.links.now found.new.lengths }
{
    found.least = [NO_LENGTH; PAIRS];
    found.known = [0; MASKS];
    let mut progress = Progress {
        settled: [0; MASKS],
        into: [0; MASKS],
        fresh: [0; MASKS],
    };
    stay(found, &mut progress, elements.target.states());
    use_empty(elements, found);
    settle(elements, found, &mut progress);
}
