// The first forest that is wanted, written element by element: its first code, what is within that element, and what follows it.
ghost use Rattle.std.specs.Prelude.{◌<◌, length};
ghost use Rattle.automata.specs.TargetBody.{target_of};
ghost use Rattle.automata.specs.Reply.{Form};
ghost use Rattle.shortest.specs.Inner.Wanted.{FormTables, Sought, Searchable};
ghost use Rattle.shortest.specs.Inner.Spelled.{FirstSpelled};

use crate::insides::choose;
use crate::onward::find_onward;
use crate::search::Search;
use crate::sets::PairSets;
use crate::tables::Tables;
use replies::lawful::over_element;
use replies::relation::{IDENTITY, compose};
use words::tag::closing_tag;

// A forest that was written: the runs over it as a relation, the target's state after it, and the index where it ends.
#[derive(Clone, Copy)]
pub struct Spelled {
    pub relation: u64,
    pub state: usize,
    pub end: usize,
}

// Writes the first forest that is wanted, from index `at` on. Calls are as deep as the longest path of elements, each the first child or
// the next sibling of the one before, and one more: 2,049 at most.
pub fn spell(tables: &Tables, goals: &PairSets, q: usize, buffer: &mut [u8], at: usize) -> Spelled
    requires { Searchable tables.now.target.bytes.now tables.now.links.now tables.now.rules.now tables.now.lengths.table.now
        × Sought tables.now.lengths.table.now goals.now.masks q at (length buffer.old)
        × (q < (target_of tables.now.target.bytes.now).states) }
    ensures { (F : Form) →
        FormTables (target_of tables.now.target.bytes.now) F tables.now.links.now tables.now.rules.now tables.now.lengths.table.now →
        FirstSpelled (target_of tables.now.target.bytes.now) F tables.now.lengths.table.now goals.now.masks q at result
        buffer.old buffer.new }
{
    let search = Search {
        tables: *tables,
        goals,
        q,
    };
    let target = tables.target;
    let rules = tables.rules;
    let mut next = PairSets::new();
    let Some(c) = choose(search, &mut next) else {
        return Spelled {
            relation: IDENTITY,
            state: q,
            end: at,
        };
    };
    // A tag fits a byte, so `as` loses nothing, and try_from would have nothing to refuse.
    buffer[at] = c as u8;
    let inside = spell(tables, &next, target.open_to(q, c), buffer, at + 1);
    let last = inside.end;
    buffer[last] = closing_tag(c) as u8;
    let element = over_element(rules, c, inside.relation);
    let t = target.close_to(inside.state, q, c);
    next = PairSets::new();
    find_onward(
        tables.lengths,
        goals,
        q,
        element,
        t,
        (last + 1 - at) / 2,
        &mut next,
    );
    let after = spell(tables, &next, t, buffer, last + 1);
    Spelled {
        relation: compose(element, after.relation),
        state: after.state,
        end: after.end,
    }
}
