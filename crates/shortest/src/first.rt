// The least length of a reply that leads out of a set, the goals with which the search begins, and the reply that it ends with.
ghost use Rattle.std.specs.Prelude.{◌≡◌, true, ◌↔◌, ◌*◌, ◌<◌, ◌≤◌, length, replicate};
ghost use Rattle.automata.specs.Bits.{bit};
ghost use Rattle.automata.specs.TargetBody.{most_states, target_of};
ghost use Rattle.automata.specs.ReplyBody.{form_of};
ghost use Rattle.relaxation.specs.Inner.Pairs.{pair_count};
ghost use Rattle.relaxation.specs.Inner.PairSet.{Gains};
ghost use Rattle.relaxation.specs.Inner.Lengths.{length_cap};
ghost use Rattle.lengths.specs.Inner.FormLengths.{FormLengths};
ghost use Rattle.shortest.specs.Inner.Wanted.{goal_count};
ghost use Rattle.shortest.specs.Inner.Spelled.{EndsOutside, LeastOutside, FirstGoal, FirstWritten};

use crate::sets::PairSets;
use crate::spell::spell;
use crate::tables::{Lengths, Tables};
use automata::bits::has;
use automata::reply::ReplyBody;
use automata::target::{MOST_STATES, TargetBody};
use lengths::form::least_over;
use relaxation::pairs::PAIRS;
use relaxation::relax::NO_LENGTH;
use replies::links::LINKS;
use replies::transitions::{TRANSITIONS, compile_rules};

// Whether a pair has a form state of one mask and a target state that another has not.
fn ends_outside(accepted: u32, set: u32, z: usize) -> bool
    requires { z < pair_count }
    ensures { (result ≡ true) ↔ EndsOutside (bit accepted) set z }
{
    has(accepted, z / MOST_STATES) && !has(set, z % MOST_STATES)
}

// The lawful replies that are to take the target from q out of a set, by the form's lengths.
#[derive(Clone, Copy)]
pub struct WayOut<'a> {
    pub reply: ReplyBody<'a>,
    pub lengths: Lengths<'a>,
    pub q: usize,
    pub set: u32,
    pub ghost small: { q < most_states },
}

impl<'a> WayOut<'a> {
    // The least length from the form's start and q to a form state that accepts and a target state outside the set: a number of the table,
    // NO_LENGTH where nothing leads there, and LENGTH_CAP where it is too long to be told. No Option, since LENGTH_CAP would still have to
    // be told apart.
    pub fn least(self) -> u16
        ensures { LeastOutside (form_of self.entry.reply.bytes.now) self.entry.lengths.table.now self.entry.q self.entry.set result }
    {
        let x = MOST_STATES * self.reply.start() + self.q;
        let accepted = self.reply.accepting();
        let lengths = self.lengths.table;
        let mut least = NO_LENGTH;
        for s in 0..MOST_STATES {
            if !has(self.set, s) {
                let found = least_over(lengths, x, accepted, s);
                least = least.min(found);
            }
        }
        least
    }

    // The first goals: such pairs, with length k, for the form's start.
    fn goals(self, k: u16) -> PairSets
        ensures { Gains (replicate goal_count 0) result.masks
            (FirstGoal (form_of self.entry.reply.bytes.now) self.entry.lengths.table.now self.entry.q self.entry.set k) }
    {
        let from = self.reply.start();
        let accepted = self.reply.accepting();
        let x = MOST_STATES * from + self.q;
        let mut goals = PairSets::new();
        for z in 0..PAIRS {
            if ends_outside(accepted, self.set, z) && self.lengths.between(x, z) == k {
                goals.insert(from, z);
            }
        }
        goals
    }

    // Writes the first of the shortest; k is how many elements they have.
    pub fn write_first(self, target: TargetBody, links: &[u8; LINKS], k: u16, buffer: &mut [u8])
        requires tables { FormLengths (target_of target.bytes.now) (form_of self.reply.bytes.now) links.now self.lengths.table.now }
        requires least { (self.q < (target_of target.bytes.now).states)
            × LeastOutside (form_of self.reply.bytes.now) self.lengths.table.now self.q self.set k
            × (k < length_cap) × (2 * k ≤ length buffer.old) }
        ensures { FirstWritten (target_of target.entry.bytes.now) (form_of self.entry.reply.bytes.now) self.entry.q self.entry.set k
            buffer.old buffer.new }
    {
        let mut rules = [0u64; TRANSITIONS];
        compile_rules(self.reply, &mut rules);
        let tables = Tables {
            target,
            links,
            rules: &rules,
            lengths: self.lengths,
        };
        let goals = self.goals(k);
        spell(&tables, &goals, self.q, buffer, 0);
    }
}
