// The effects of reply forms: to which states lawful replies for a code take the target, and how short such a reply can be (SPEC 2.11,
// 2.12).
#![tactic(auto)]

ghost use Rattle.std.specs.Prelude.{◌≡◌, ◌<◌, length};
ghost use Rattle.words.specs.Tag.{codes};
ghost use Rattle.words.specs.Inner.All.{all};
ghost use Rattle.automata.specs.Bits.{bit};
ghost use Rattle.automata.specs.TargetBody.{most_states, target_of};
ghost use Rattle.automata.specs.ReplyBody.{form_of};
ghost use Rattle.effects.specs.Effects.{no_effects, number_count, shortest_at};
ghost use Rattle.effects.specs.Inner.Sets.{effect_at, set_count, sets_of};
ghost use Rattle.effects.specs.Inner.Lent.{results};
ghost use Rattle.effects.specs.Inner.Numbers.{numbers_of};
ghost use Rattle.effects.specs.Inner.WithForm.{WithForm};

use crate::numbers::{FORM_NUMBERS, LONG_NUMBER, NUMBERS, put_numbers, set_at, write_sets};
use automata::reply::ReplyBody;
use automata::target::{MOST_STATES, TargetBody};
use words::tag::CODES;

mod numbers;

// A set for each code and each state that a target may have.
const SETS: usize = CODES * MOST_STATES;

// What is told of a state: no lawful reply reaches it; the least number of tags of those that do; or that it is more than 4,096.
#[derive(Clone, Copy, Debug, PartialEq, Eq)]
pub enum Shortest {
    Unreached,
    Tags(usize),
    Longer,
}

// For each code and two target states a number; `at` says what the number stands for. A code that has no form reaches nothing.
#[derive(Clone, Copy)]
pub struct Effects {
    numbers: [u16; NUMBERS],
}

impl Effects {
    // No code has a form.
    pub fn none() -> Effects
        ensures { result ≡ no_effects }
    {
        Effects {
            numbers: [0; NUMBERS],
        }
    }

    // These effects and those of one more form, that of code c.
    pub fn with_form(mut self, target: TargetBody, reply: ReplyBody, c: usize) -> Effects
        requires { c < codes }
        ensures { WithForm (target_of target.entry.bytes.now) (form_of reply.entry.bytes.now) c self result }
    {
        let first = FORM_NUMBERS * c;
        put_numbers(
            target,
            reply,
            &mut self.numbers[first..first + FORM_NUMBERS],
        );
        self
    }

    // What is told of code c, from target state q to s.
    pub fn at(self, c: usize, q: usize, s: usize) -> Shortest
        requires { (c < codes) × (q < most_states) × (s < most_states) }
        ensures { result ≡ shortest_at self c q s }
    {
        shortest_at(&self.numbers, c, q, s)
    }

    // All the numbers, to be lent to who asks `shortest_at` often: the text of `verdict` is to (wip/report).
    pub fn number_table(self) -> [u16; NUMBERS]
        ensures { result ≡ self.numbers }
    {
        self.numbers
    }

    // The set of code c at target state q: what is reached, whatever the length.
    pub fn set(self, c: usize, q: usize) -> u32
        requires { (c < codes) × (q < most_states) }
        ensures { result ≡ effect_at self c q }
    {
        set_at(&self.numbers, MOST_STATES * c + q)
    }

    // All the sets, to be lent to who asks often.
    pub fn table(self) -> [u32; SETS]
        ensures { result ≡ sets_of self }
    {
        let mut sets = [0u32; SETS];
        write_sets(&self.numbers, &mut sets);
        sets
    }
}

// What is told of code c, from target state q to s, by the numbers as `number_table` gives them. `at` takes a copy of all the numbers, and
// the text of `verdict` is to ask for each two states (wip/report): it asks here.
pub fn shortest_at(numbers: &[u16], c: usize, q: usize, s: usize) -> Shortest
    requires { (length numbers.now ≡ number_count) × (c < codes) × (q < most_states) × (s < most_states) }
    ensures { result ≡ shortest_at (numbers_of numbers.now) c q s }
{
    let number = numbers[FORM_NUMBERS * c + (MOST_STATES * q + s)];
    if number == 0 {
        Shortest::Unreached
    } else if number < LONG_NUMBER {
        Shortest::Tags(2 * (usize::from(number) - 1))
    } else {
        Shortest::Longer
    }
}

// Whether every reply for code c leads from state q into the goal, by the sets as `table` gives them: solvers ask often.
pub fn within(sets: &[u32], c: usize, q: usize, goal: u32) -> bool
    requires { (length sets.now ≡ set_count) × (c < codes) × (q < most_states) }
    ensures { result ≡ all (bit goal) (results sets.now c q) }
{
    let m = sets[MOST_STATES * c + q];
    (m | goal) == goal
}
