// The evaluators, and the verdict on any file.
#![tactic(auto)]

ghost use Rattle.std.specs.Prelude.{◌≡◌, length};
ghost use Rattle.effects.specs.Inner.Sets.{set_count};

use automata::target::TargetBody;

pub mod evaluate;
pub mod verdict;

// What the evaluators go by: the target, where reading leads, and the sets of the forms' effects, where fetching does.
#[derive(Clone, Copy)]
pub struct Solver<'a> {
    pub target: TargetBody<'a>,
    pub sets: &'a [u32],
    pub ghost sized: { length sets.now ≡ set_count },
}
