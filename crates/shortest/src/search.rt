// What is sought: goals, each from its form state and one target state, by the tables of a form.
ghost use Rattle.std.specs.Prelude.{◌<◌};
ghost use Rattle.automata.specs.TargetBody.{most_states, target_of};

use crate::sets::PairSets;
use crate::tables::Tables;

#[derive(Clone, Copy)]
pub struct Search<'a> {
    pub tables: Tables<'a>,
    pub goals: &'a PairSets,
    pub q: usize,
    pub ghost state: { (q < (target_of tables.target.bytes.now).states) × (q < most_states) },
}
