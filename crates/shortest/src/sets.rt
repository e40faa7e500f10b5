// A set of pairs for each form state: goals, or stops.
ghost use Rattle.std.specs.Prelude.{◌≡◌, true, ◌↔◌, ℕ, ◌<◌, length, get_or, replicate};
ghost use Rattle.automata.specs.Bits.{bit};
ghost use Rattle.automata.specs.TargetBody.{most_states};
ghost use Rattle.automata.specs.Inner.FormState.{IsFormState};
ghost use Rattle.relaxation.specs.Inner.Pairs.{pair_count, form_part, target_part};
ghost use Rattle.relaxation.specs.Inner.PairSet.{mask_index, Member, Gains};
ghost use Rattle.shortest.specs.Inner.Wanted.{goal_count};
ghost use Rattle.shortest.specs.Inner.Stops.{StatesOf};

use automata::reply::MOST_REPLY_STATES;
use relaxation::pairs::{Members, insert, is_member, members_of};

// How many pairs of form states there are.
pub const STATE_PAIRS: usize = MOST_REPLY_STATES * MOST_REPLY_STATES;

// Whether any of the masks has a state.
fn any_state(masks: &[u32]) -> bool
    ensures { (result ≡ true) ↔ ((i : ℕ) × (s : ℕ) × (i < length masks.now) × (s < most_states) × (bit (get_or masks.now i 0) s ≡ true)) }
{
    masks.iter().any(|m| *m != 0)
}

// A mask of target states for each two form states p and s: the pairs with s in the set of p.
#[derive(Clone, Copy)]
pub struct PairSets {
    pub masks: [u32; STATE_PAIRS],
}

impl PairSets {
    pub fn new() -> Self
        ensures { result.masks ≡ replicate goal_count 0 }
    {
        PairSets {
            masks: [0; STATE_PAIRS],
        }
    }

    pub fn has(&self, p: usize, z: usize) -> bool
        requires { IsFormState p × (z < pair_count) }
        ensures { result ≡ bit (get_or self.now.masks (mask_index p (form_part z)) 0) (target_part z) }
    {
        is_member(&self.masks, p, z)
    }

    pub fn insert(&mut self, p: usize, z: usize)
        requires { IsFormState p × (z < pair_count) }
        ensures { Gains self.old.masks self.new.masks (λ p' z'. (p' ≡ p) × (z' ≡ z)) }
    {
        insert(&mut self.masks, p, z);
    }

    // The members of the set of p.
    pub fn of(&self, p: usize) -> Members
        requires { IsFormState p }
        ensures { (result.table.now ≡ self.now.masks) × (result.x ≡ p) × (result.from ≡ 0) }
    {
        members_of(&self.masks, p)
    }

    // Whether the set of p has a member.
    pub fn has_some(&self, p: usize) -> bool
        requires { IsFormState p }
        ensures { (result ≡ true) ↔ ((z : ℕ) × (z < pair_count) × Member self.now.masks p z) }
    {
        self.of(p).next().is_some()
    }

    // Whether any set has a member.
    pub fn has_any(&self) -> bool
        ensures { (result ≡ true) ↔ ((p : ℕ) × (z : ℕ) × IsFormState p × (z < pair_count) × Member self.now.masks p z) }
    {
        any_state(&self.masks)
    }

    // The target states of all members.
    pub fn states(&self) -> u32
        ensures { StatesOf self.now.masks result }
    {
        let mut states = 0;
        for m in &self.masks {
            states |= *m;
        }
        states
    }
}
