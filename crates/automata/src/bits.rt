// Masks: sets of target states, one bit for each.
ghost use Rattle.std.specs.Prelude.{◌≡◌, ◌<◌, ◌≤◌, ◌^◌};
ghost use Rattle.std.specs.Int.Bits.{bit_or};
ghost use Rattle.std.specs.Iterator.{at_most};
ghost use Rattle.automata.specs.Bits.{bit};
ghost use Rattle.automata.specs.TargetBody.{most_states};
ghost use Rattle.automata.specs.Inner.StatesIn.{StatesFrom, NextState};

use crate::target::MOST_STATES;

pub fn has(mask: u32, i: usize) -> bool
    requires { i < most_states }
    ensures { result ≡ bit mask i }
{
    (mask >> i) % 2 == 1
}

// The mask with one more element.
pub fn with(mask: u32, i: usize) -> u32
    requires { i < most_states }
    ensures { result ≡ bit_or mask (2 ^ i) }
{
    mask | (1 << i)
}

// The states that a mask has, in rising order: those that are left.
#[derive(Clone, Copy)]
pub struct States {
    rest: u32,
}

impl Iterator for States {
    type Item = usize;

    ghost next_gives = { NextState };

    ghost remaining = { λ s. at_most s.rest };

    fn next(&mut self) -> Option<usize> {
        if self.rest == 0 {
            return None;
        }
        let i = self.rest.trailing_zeros() as usize;
        self.rest &= self.rest - 1;
        Some(i)
    }
}

pub fn states_in(mask: u32) -> States
    ensures { StatesFrom mask 0 result }
{
    States { rest: mask }
}

// Those that are not below one. From the last on there are none, and a mask is not shifted by all its bits.
pub fn states_from(mask: u32, from: usize) -> States
    requires { from ≤ most_states }
    ensures { StatesFrom mask from result }
{
    if from == MOST_STATES {
        return States { rest: 0 };
    }
    States {
        rest: (mask >> from) << from,
    }
}
