// The goals of an element's inside, and the first code that has some.
ghost use Rattle.std.specs.Prelude.{◌≡◌, true, ◌↔◌, ◌<◌, replicate};
ghost use Rattle.words.specs.Tag.{IsCode};
ghost use Rattle.automata.specs.TargetBody.{most_states, target_of};
ghost use Rattle.automata.specs.Inner.FormState.{IsFormState};
ghost use Rattle.relaxation.specs.Inner.Pairs.{form_part};
ghost use Rattle.relaxation.specs.Inner.PairSet.{Member, Gains};
ghost use Rattle.shortest.specs.Inner.Wanted.{goal_count};
ghost use Rattle.shortest.specs.Inner.Stops.{StatesOf};
ghost use Rattle.shortest.specs.Inner.Insides.{EndsAt, SomeElement, InsideGoal, ChosenBy, Chosen};

use crate::search::Search;
use crate::sets::{PairSets, STATE_PAIRS};
use crate::stops::find_stops;
use crate::tables::Tables;
use automata::bits::{has, states_in};
use automata::reply::MOST_REPLY_STATES;
use automata::target::MOST_STATES;
use relaxation::around::linked;
use relaxation::relax::LENGTH_CAP;
use replies::links::link_index;
use words::tag::CODES;

// An element that is to lead from target state q to a stop; a mask has the target states of all stops.
#[derive(Clone, Copy)]
struct Opening<'a> {
    tables: Tables<'a>,
    stops: &'a PairSets,
    ends: u32,
    q: usize,
    ghost ends_of: { StatesOf stops.now.masks ends },
    ghost state: { (q < (target_of tables.target.bytes.now).states) × (q < most_states) },
}

impl<'a> Opening<'a> {
    // Whether one of e elements leads from form state p to a stop of p: to a form state of a link and to target state t.
    fn ends_at(self, p: usize, link: u8, t: usize, e: u16) -> bool
        requires { IsFormState p × (t < most_states) }
        ensures { (result ≡ true)
            ↔ EndsAt self.entry.tables.lengths.table.now (Member self.entry.stops.now.masks) self.entry.q p link t e }
    {
        let x = MOST_STATES * p + self.q;
        // A loop, since `any` would have to show by itself that each state of the mask is in range.
        for s in states_in(u32::from(link)) {
            let y = MOST_STATES * s + t;
            if self.tables.lengths.between(x, y) == e && self.stops.has(p, y) {
                return true;
            }
        }
        false
    }

    // The same from any form state, for an element of code c whose inside leads from form state a to b.
    fn some_element(self, c: usize, a: usize, b: usize, t: usize, e: u16) -> bool
        requires { IsCode c × IsFormState a × IsFormState b × (t < most_states) }
        ensures { (result ≡ true) ↔ SomeElement self.entry.tables.lengths.table.now (Member self.entry.stops.now.masks) self.entry.q
            self.entry.tables.links.now c a b t e }
    {
        (0..MOST_REPLY_STATES).any(|p| {
            let link = self.tables.links[link_index(c, p, a, b)];
            self.ends_at(p, link, t, e)
        })
    }

    // The goals, for form state a and with form state b, of the inside of an element of code c. Only target states of a stop are looked
    // at.
    fn open_row(self, c: usize, a: usize, b: usize, inside: &mut PairSets)
        requires { IsCode c × IsFormState a × IsFormState b }
        ensures { Gains inside.old.masks inside.new.masks (λ a' y. (a' ≡ a) × (form_part y ≡ b)
            × InsideGoal self.entry.tables.lengths.table.now (Member self.entry.stops.now.masks) self.entry.q
            (target_of self.entry.tables.target.bytes.now) self.entry.tables.links.now c a y) }
    {
        let target = self.tables.target;
        let first = MOST_STATES * a + target.open_to(self.q, c);
        for r in 0..target.states() {
            let y = MOST_STATES * b + r;
            let k = self.tables.lengths.between(first, y);
            if k < LENGTH_CAP {
                let t = target.close_to(r, self.q, c);
                if has(self.ends, t) && self.some_element(c, a, b, t, k + 1) {
                    inside.insert(a, y);
                }
            }
        }
    }

    // The goals of the inside of an element of code c.
    fn open_code(self, c: usize, inside: &mut PairSets)
        requires { IsCode c }
        ensures { Gains inside.old.masks inside.new.masks (λ a y. IsFormState a
            × InsideGoal self.entry.tables.lengths.table.now (Member self.entry.stops.now.masks) self.entry.q
            (target_of self.entry.tables.target.bytes.now) self.entry.tables.links.now c a y) }
    {
        let links = self.tables.links;
        for i in 0..STATE_PAIRS {
            let a = i / MOST_REPLY_STATES;
            let b = i % MOST_REPLY_STATES;
            if linked(links, c, a, b) {
                self.open_row(c, a, b, inside);
            }
        }
    }

    // The first code whose inside has a goal, with these goals in sets that were empty.
    fn first_code(self, inside: &mut PairSets) -> Option<usize>
        requires { inside.old.masks ≡ replicate goal_count 0 }
        ensures { ChosenBy (Member self.entry.stops.now.masks) (target_of self.entry.tables.target.bytes.now)
            self.entry.tables.links.now self.entry.tables.lengths.table.now self.entry.q result inside.new.masks }
    {
        for c in 0..CODES {
            self.open_code(c, inside);
            if inside.has_any() {
                return Some(c);
            }
        }
        None
    }
}

// The code of the first element on the first way to a goal, with the goals of its inside in sets that were empty; none where nothing is to
// be written any more.
pub fn choose(search: Search, inside: &mut PairSets) -> Option<usize>
    requires { inside.old.masks ≡ replicate goal_count 0 }
    ensures { Chosen (target_of search.entry.tables.target.bytes.now) search.entry.tables.links.now search.entry.tables.lengths.table.now
        search.entry.goals.now.masks search.entry.q result inside.new.masks }
{
    let mut stops = PairSets::new();
    find_stops(search.tables.lengths, search.goals, search.q, &mut stops);
    let ends = stops.states();
    if ends == 0 {
        return None;
    }
    let opening = Opening {
        tables: search.tables,
        stops: &stops,
        ends,
        q: search.q,
    };
    opening.first_code(inside)
}
