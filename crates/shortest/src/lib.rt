// The first of the shortest lawful replies that take the target out of a set of states (SPEC 13.2, 13.3).
#![tactic(auto)]

ghost use Rattle.std.specs.Prelude.{◌<◌};
ghost use Rattle.automata.specs.TargetBody.{target_of};
ghost use Rattle.automata.specs.ReplyBody.{form_of};
ghost use Rattle.shortest.specs.Inner.First.{Outside, FoundInto};

use crate::first::WayOut;
use crate::tables::Lengths;
use automata::reply::ReplyBody;
use automata::target::TargetBody;
use effects::Shortest;
use lengths::form::find_form_lengths;
use relaxation::found::Found;
use relaxation::pairs::{LENGTHS, MASKS, PAIRS};
use relaxation::relax::{LENGTH_CAP, NO_LENGTH};
use replies::links::LINKS;

mod first;
mod insides;
mod onward;
mod search;
mod sets;
mod spell;
mod stops;
mod tables;

// How short a reply can be that takes the target from q out of the set; the first of the shortest is written from the buffer's first byte
// on, where it has room.
pub fn shortest_outside(
    target: TargetBody,
    reply: ReplyBody,
    q: usize,
    set: u32,
    buffer: &mut [u8],
) -> Shortest
    requires { (q < (target_of target.bytes.now).states) }
    ensures { FoundInto (target_of target.entry.bytes.now) (form_of reply.entry.bytes.now) q (Outside set)
        buffer.old result buffer.new }
{
    let mut links = [0u8; LINKS];
    // Written out here: a function that returns it would leave its 137 KB on the stack twice.
    let mut found = Found {
        lengths: [NO_LENGTH; LENGTHS],
        least: [NO_LENGTH; PAIRS],
        known: [0; MASKS],
    };
    find_form_lengths(target, reply, &mut links, &mut found);
    let way = WayOut {
        reply,
        lengths: Lengths {
            table: &found.lengths,
        },
        q,
        set,
    };
    match way.least() {
        NO_LENGTH => Shortest::Unreached,
        LENGTH_CAP => Shortest::Longer,
        least => {
            let tags = 2 * usize::from(least);
            if tags <= buffer.len() {
                way.write_first(target, &links, least, buffer);
            }
            Shortest::Tags(tags)
        }
    }
}
