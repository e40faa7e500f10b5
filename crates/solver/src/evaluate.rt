// The evaluators of forests and of elements, which call each other (SPEC 11.2). Sets of target states are masks.
// The evaluators know the rule of play through two functions: `open_to`, where an opening tag leads, and `at_closing`, whether the goal is
// met from the state kept and the inside's state.
ghost use Rattle.std.specs.Prelude.{◌≡◌, cond, ◌-◌, ◌^◌, ◌<◌, ◌≤◌, get_or};
ghost use Rattle.std.specs.Int.Bits.{bit_or};
ghost use Rattle.words.specs.Tag.{codes};
ghost use Rattle.automata.specs.Bits.{bit};
ghost use Rattle.automata.specs.TargetBody.{most_states, target_of};
ghost use Rattle.solver.specs.Inner.Evaluated.{ForestJudged, ElementJudged, AroundJudged, fetch_wins, by_states};
ghost use Rattle.solver.specs.Inner.Evaluated.{state_goal, GoalIs, NothingJudged, Judgeable, InsideJudged, InsideFor};

use crate::Solver;
use automata::bits::{has, with};
use automata::target::MOST_STATES;
use effects::within;
use words::tag::{code_of, is_opening};
use words::vocabulary::fetchable;

// The set of states from which a part of the record is won, and where the part begins.
#[derive(Clone, Copy)]
pub struct Judged {
    pub start: usize,
    pub states: u32,
}

// The set of states that was found for a goal.
#[derive(Clone, Copy)]
pub struct Judgement {
    pub goal: u32,
    pub won: u32,
}

// The last two goals for which an inside was judged.
#[derive(Clone, Copy)]
pub struct Inside {
    pub last: Judgement,
    pub older: Judgement,
}

// The mask with one more element, if it is taken. The flag is shifted: with a branch here a verdict takes an eighth longer.
fn taken(mask: u32, i: usize, take: bool) -> u32
    requires { i < most_states }
    ensures { result ≡ cond take (bit_or mask (2 ^ i)) mask }
{
    mask | (u32::from(take) << i)
}

// The mask of n states. That of 32 has a case of its own: a mask is not shifted by 32.
fn every(n: usize) -> u32
    requires { n ≤ most_states }
    ensures { result ≡ 2 ^ n - 1 }
{
    if n == MOST_STATES {
        return u32::MAX;
    }
    with(0, n) - 1
}

impl<'a> Solver<'a> {
    // Whether a fetch of an element of code c, opened in q, has only results in the goal.
    pub fn fetch_wins(self, c: usize, q: usize, goal: u32) -> bool
        requires { (c < codes) × (q < most_states) }
        ensures { result ≡ fetch_wins self.entry.sets.now c goal q }
    {
        fetchable(c) && within(self.sets, c, q, goal)
    }

    // Whether an element of code c, opened in q, can be closed in r so that the goal is met: by reading the closing tag, or by fetching
    // there, and then any r will do.
    fn at_closing(self, c: usize, q: usize, r: usize, goal: u32) -> bool
        requires { (c < codes) × (q < (target_of self.target.bytes.now).states) × (r < (target_of self.target.bytes.now).states) }
        ensures { result ≡ state_goal self.entry.target.bytes.now self.entry.sets.now c q (bit goal) r }
    {
        let read = has(goal, self.target.close_to(r, q, c));
        self.fetch_wins(c, q, goal) || read
    }

    // The goal that the inside of an element of code c, opened in q, must meet.
    pub fn inner_goal(self, c: usize, q: usize, goal: u32) -> u32
        requires { (q < (target_of self.target.bytes.now).states) × (c < codes) }
        ensures { GoalIs self.entry.target.bytes.now self.entry.sets.now c q goal result }
    {
        let mut found: u32 = 0;
        for r in 0..self.target.states() {
            found = taken(found, r, self.at_closing(c, q, r, goal));
        }
        found
    }

    // The states from which an empty element is won: of its goal the one state is asked for that the opening tag leads to.
    fn around_nothing(self, c: usize, goal: u32) -> u32
        requires { c < codes }
        ensures { NothingJudged self.entry.target.bytes.now self.entry.sets.now c goal result }
    {
        let mut found: u32 = 0;
        for q in 0..self.target.states() {
            let p = self.target.open_to(q, c);
            found = taken(found, q, self.at_closing(c, q, p, goal));
        }
        found
    }

    // The inside that ends at `end`, judged for a goal. A goal of nothing is not met, a goal of everything is, and the last two goals that
    // were neither are not judged again.
    #[cycle(around_element_forest_inside_for)]
    fn inside_for(self, record: &'a [u8], end: usize, goal: u32, known: &mut Inside) -> u32
        requires { Judgeable self.target.bytes.now self.sets.now «record».now end ×
            InsideJudged self.target.bytes.now self.sets.now «record».now end known.old }
        ensures { InsideFor self.entry.target.bytes.now self.entry.sets.now «record».now end goal result known.new }
    {
        if goal == known.last.goal {
            return known.last.won;
        }
        if goal == 0 {
            return 0;
        }
        if goal == every(self.target.states()) {
            return goal;
        }
        let before = known.last;
        if goal == known.older.goal {
            let judged = known.older;
            *known = Inside {
                last: judged,
                older: before,
            };
            return judged.won;
        }
        let won = self.forest(record, end, goal).states;
        *known = Inside {
            last: Judgement { goal, won },
            older: before,
        };
        won
    }

    // The states from which an element of code c is won, around the forest that ends at `end`: each q that the opening tag takes into the
    // forest's set for the goal of q.
    #[cycle(around_element_forest_inside_for)]
    fn around(self, record: &'a [u8], end: usize, c: usize, goal: u32, mut known: Inside) -> u32
        requires { Judgeable self.target.bytes.now self.sets.now «record».now end × (c < codes) ×
            InsideJudged self.target.bytes.now self.sets.now «record».now end known }
        ensures { AroundJudged (by_states self.entry.target.bytes.now self.entry.sets.now) «record».now end c goal result }
    {
        let mut found: u32 = 0;
        for q in 0..self.target.states() {
            let next = self.inner_goal(c, q, goal);
            let won = self.inside_for(record, end, next, &mut known);
            let p = self.target.open_to(q, c);
            found = taken(found, q, has(won, p));
        }
        found
    }

    // Judges the element whose closing tag stands before `end`. Its inside is judged for the goal of state 0 first, which tells where it
    // begins. Of bytes that are not well nested the answer says nothing but that it begins before `end`, so that the evaluators end on any
    // bytes.
    #[cycle(around_element_forest_inside_for)]
    pub fn element(self, record: &'a [u8], end: usize, goal: u32) -> Judged
        requires { Judgeable self.target.bytes.now self.sets.now «record».now end × (1 ≤ end) ×
            (codes ≤ get_or «record».now (end - 1) 0) }
        ensures { ElementJudged (by_states self.entry.target.bytes.now self.entry.sets.now) «record».now
            end goal result.start result.states }
    {
        let last = end - 1;
        if last == 0 {
            return Judged {
                start: 0,
                states: 0,
            };
        }
        let c = code_of(record[last]);
        let before = last - 1;
        if is_opening(record[before]) {
            return Judged {
                start: before,
                states: self.around_nothing(c, goal),
            };
        }
        let first = self.inner_goal(c, 0, goal);
        let j = self.forest(record, last, first);
        let judged = Judgement {
            goal: first,
            won: j.states,
        };
        let known = Inside {
            last: judged,
            older: judged,
        };
        Judged {
            start: j.start.saturating_sub(1),
            states: self.around(record, last, c, goal, known),
        }
    }

    // Judges the longest forest that ends at `end`, from its last element back to its first. Where an element begins is known only when it
    // is judged, so no range tells the ends.
    #[cycle(around_element_forest_inside_for)]
    pub fn forest(self, record: &'a [u8], end: usize, goal: u32) -> Judged
        requires { Judgeable self.target.bytes.now self.sets.now «record».now end }
        ensures { ForestJudged (by_states self.entry.target.bytes.now self.entry.sets.now) «record».now
            end goal result.start result.states }
    {
        let mut start = end;
        let mut states = goal;
        while 0 < start {
            let last = start - 1;
            if is_opening(record[last]) {
                return Judged { start, states };
            }
            let j = self.element(record, start, states);
            start = j.start;
            states = j.states;
        }
        Judged { start, states }
    }
}
