// Advice: the tags left are judged from the outermost open element inwards, and then the two moves at the next tag.
#![tactic(auto)]

ghost use Rattle.std.specs.Prelude.{◌≡◌, ◌∷◌, ◌+◌, ◌-◌, ◌<◌, ◌≤◌, get_or, set};
ghost use Rattle.words.specs.Stack.{newest_first};
ghost use Rattle.words.specs.Inner.Rest.{Closes};
ghost use Rattle.words.specs.Tag.{opening, closing, codes, word_of};
ghost use Rattle.automata.specs.Target.{at};
ghost use Rattle.automata.specs.TargetBody.{target_of};
ghost use Rattle.advice.specs.AdviceNumber.{advice_number};
ghost use Rattle.advice.specs.Kept.{play_slots};
ghost use Rattle.game.specs.Game.{Game};
ghost use Rattle.solver.specs.Inner.PlayedWith.{PlayedWith};
ghost use Rattle.game.specs.Advice.{AdviceIs};
ghost use Rattle.advice.specs.Inner.WonFrom.{WonFrom, Left, LeftPast};

use automata::bits::has;
use job::loader::MOST_RECORD_DEPTH;
use solver::Solver;
use words::nesting::closing_index;
use words::tag::{code_of, is_opening};

// A play has a place for each element that a record may have open (SPEC 3.9).
pub const PLAY_SLOTS: usize = MOST_RECORD_DEPTH;

// The kept states of the open elements, in fixed memory: there are `depth`, the newest last, and what stands behind them says nothing. It
// is no `Stack` of `words`, which holds bytes and begins empty: these are the states of a play, which lends all of its places.
#[derive(Clone, Copy)]
pub struct KeptStates {
    pub states: [usize; PLAY_SLOTS],
    pub depth: usize,
}

impl KeptStates {
    // One more element is open.
    fn push(&mut self, state: usize)
        requires { self.old.depth < play_slots }
        ensures { self.new ≡ record { states = set self.old.states self.old.depth state; depth = self.old.depth + 1 } }
    {
        self.states[self.depth] = state;
        self.depth += 1;
    }

    // The state in which the innermost open element was opened; that element is then no longer open.
    pub fn pop(&mut self) -> usize
        requires { (0 < self.old.depth) × (self.old.depth ≤ play_slots) }
        ensures { (result ≡ get_or self.old.states (self.old.depth - 1) 0) ×
            (self.new ≡ record { states = self.old.states; depth = self.old.depth - 1 }) }
    {
        self.depth -= 1;
        self.states[self.depth]
    }
}

// What is advised: a move, or that the play is lost; with no tag left, whether the form is met.
#[derive(Clone, Copy, Debug, PartialEq, Eq)]
pub enum Advised {
    Lost = 0,
    Read = 1,
    Fetch = 2,
    InForm = 3,
    OutOfForm = 4,
}

impl From<Advised> for u32 {
    ghost from_gives = { λ advised number. number ≡ advice_number advised };

    fn from(advised: Advised) -> u32 {
        advised as u32
    }
}

// The states from which the rest of a record is won, with some elements open: first what follows the innermost of them is judged.
pub fn won_states<'a>(solver: Solver<'a>, rest: &'a [u8], mut kept: KeptStates) -> u32
    requires { Left solver.target.bytes.now solver.sets.now rest.now kept.states kept.depth }
    ensures { WonFrom solver.entry.target.bytes.now solver.entry.sets.now (word_of rest.now) (newest_first kept.states kept.depth) result }
{
    if kept.depth == 0 {
        let goal = solver.target.accepting();
        let whole = solver.forest(rest, rest.len(), goal);
        return whole.states;
    }
    let q = kept.pop();
    let j = closing_index(rest);
    let c = code_of(rest[j]);
    let outer = won_states(solver, &rest[j + 1..], kept);
    let goal = solver.inner_goal(c, q, outer);
    let inside = solver.forest(rest, j, goal);
    inside.states
}

// Advice at an opening tag of code c, which can only be read (SPEC 3.2).
fn opening_advice<'a>(
    solver: Solver<'a>,
    rest: &'a [u8],
    c: usize,
    state: usize,
    mut kept: KeptStates,
) -> Advised
    requires { Left solver.target.bytes.now solver.sets.now rest.now (set kept.states kept.depth state) (kept.depth + 1) ×
        Closes kept.depth (opening c ∷ word_of rest.now) × (c < codes) × (state < (target_of solver.target.bytes.now).states) ×
        (kept.depth < play_slots) }
    ensures { (G : Game) → PlayedWith G solver.entry.target.bytes.now solver.entry.sets.now →
        AdviceIs G (opening c ∷ word_of rest.now) (at state (newest_first kept.states kept.depth)) (advice_number result) }
{
    kept.push(state);
    let won = won_states(solver, rest, kept);
    let read = solver.target.open_to(state, c);
    if has(won, read) {
        Advised::Read
    } else {
        Advised::Lost
    }
}

// Advice at the closing tag of the innermost open element, which has code c: read goes before fetch (SPEC 4.8).
fn closing_advice<'a>(
    solver: Solver<'a>,
    rest: &'a [u8],
    c: usize,
    state: usize,
    mut kept: KeptStates,
) -> Advised
    requires { LeftPast solver.target.bytes.now solver.sets.now rest.now kept.states kept.depth × (c < codes) ×
        (state < (target_of solver.target.bytes.now).states) }
    ensures { (G : Game) → PlayedWith G solver.entry.target.bytes.now solver.entry.sets.now →
        AdviceIs G (closing c ∷ word_of rest.now) (at state (newest_first kept.states kept.depth)) (advice_number result) }
{
    let q = kept.pop();
    let won = won_states(solver, rest, kept);
    let read = solver.target.close_to(state, q, c);
    let reads = has(won, read);
    let fetches = solver.fetch_wins(c, q, won);
    if reads {
        return Advised::Read;
    }
    if fetches {
        return Advised::Fetch;
    }
    Advised::Lost
}

// Advice with the rest of a record left, judged from a state and the kept states of the open elements.
pub fn advice_from<'a>(
    solver: Solver<'a>,
    rest: &'a [u8],
    state: usize,
    kept: KeptStates,
) -> Advised
    requires { Left solver.target.bytes.now solver.sets.now rest.now kept.states kept.depth ×
        (state < (target_of solver.target.bytes.now).states) }
    ensures { (G : Game) → PlayedWith G solver.entry.target.bytes.now solver.entry.sets.now →
        AdviceIs G (word_of rest.now) (at state (newest_first kept.states kept.depth)) (advice_number result) }
{
    let Some((tag, later)) = rest.split_first() else {
        if has(solver.target.accepting(), state) {
            return Advised::InForm;
        }
        return Advised::OutOfForm;
    };
    let c = code_of(*tag);
    if is_opening(*tag) {
        return opening_advice(solver, later, c, state, kept);
    }
    closing_advice(solver, later, c, state, kept)
}
