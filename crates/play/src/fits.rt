// Whether a play fits a record and a target: the refusal `Play` without the buffer's part (SPEC 7.21).
ghost use Rattle.std.specs.Prelude.{◌≡◌, true, ◌↔◌, ℕ, ◌≤◌};
ghost use Rattle.std.proofs.Math.Bool.{decide};
ghost use Rattle.words.specs.Tag.{word_of};
ghost use Rattle.words.specs.IsWord.{WithinDepth};
ghost use Rattle.automata.specs.TargetBody.{target_of};
ghost use Rattle.job.specs.Record.{most_record_depth};
ghost use Rattle.advice.specs.Kept.{play_slots};
ghost use Rattle.play.specs.Inner.Slots.{SlotFits, Rising};
ghost use Rattle.play.specs.Decide.Play.{play_fits?};

use crate::Play;
use advice::PLAY_SLOTS;
use automata::target::TargetBody;
use words::nesting::open_at;

// Whether the places of the open elements hold at most `most`, and the unused ones zero.
fn slots_ok(l: [usize; PLAY_SLOTS], depth: usize, most: usize) -> bool
    ensures { (result ≡ true) ↔ ((i : ℕ) → SlotFits l depth most i) }
{
    l.iter()
        .enumerate()
        .all(|(i, x)| if i < depth { *x <= most } else { *x == 0 })
}

// Whether the places of the open elements do not fall.
fn rising(l: [usize; PLAY_SLOTS], depth: usize) -> bool
    requires { depth ≤ play_slots }
    ensures { (result ≡ true) ↔ Rising l depth }
{
    l[..depth].is_sorted()
}

// Whether a play fits a record and a target. A play may hold anything.
pub fn play_fits<'a>(p: Play, target: TargetBody<'a>, record: &'a [u8]) -> bool
    requires { WithinDepth most_record_depth «record».now }
    ensures { result ≡ decide (play_fits? (target_of target.entry.bytes.now) (word_of «record».now) p) }
{
    let position = p.position;
    if record.len() < position {
        return false;
    }
    let n = target.states();
    if n <= p.state {
        return false;
    }
    let depth = p.depth;
    if depth != open_at(record, position) {
        return false;
    }
    let kept = p.kept;
    let begins = p.begins;
    slots_ok(kept, depth, n - 1) && slots_ok(begins, depth, p.count) && rising(begins, depth)
}
