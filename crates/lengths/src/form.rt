// The least lengths of a form by its body, and the least of them over the form states of a mask.
ghost use Rattle.std.specs.Prelude.{◌≡◌, ◌<◌, replicate};
ghost use Rattle.automata.specs.TargetBody.{most_states, target_of};
ghost use Rattle.automata.specs.ReplyBody.{form_of, most_reply_states};
ghost use Rattle.replies.specs.Inner.Links.{link_count};
ghost use Rattle.relaxation.specs.Inner.Pairs.{pair_count};
ghost use Rattle.relaxation.specs.Inner.Lengths.{length_count, no_length};
ghost use Rattle.lengths.specs.Inner.FormLengths.{FormLengths, LeastOver};

use crate::search::find_lengths;
use automata::bits::has;
use automata::reply::{MOST_REPLY_STATES, ReplyBody};
use automata::target::{MOST_STATES, TargetBody};
use relaxation::elements::Elements;
use relaxation::found::Found;
use relaxation::pairs::{LENGTHS, PAIRS};
use relaxation::relax::NO_LENGTH;
use replies::links::compile;

// The links of a form and its least lengths, written into tables that have none.
pub fn find_form_lengths(target: TargetBody, reply: ReplyBody, links: &mut [u8], found: &mut Found)
    requires { (links.old ≡ replicate link_count 0) × (found.old.lengths ≡ replicate length_count no_length) }
    ensures { FormLengths (target_of target.entry.bytes.now) (form_of reply.entry.bytes.now) links.new found.new.lengths }
{
    compile(reply, links);
    find_lengths(Elements { target, links }, found);
}

// The least length from pair x to target state s, with a form state of a mask. It is a number of the table or NO_LENGTH, which stands for
// none in the table too: who asks compares it with other lengths, or packs it into a number again.
pub fn least_over(lengths: &[u16; LENGTHS], x: usize, last: u32, s: usize) -> u16
    requires { (x < pair_count) × (s < most_states) }
    ensures { LeastOver lengths.now x last s most_reply_states result }
{
    let mut k = NO_LENGTH;
    for r in 0..MOST_REPLY_STATES {
        if has(last, r) {
            k = k.min(lengths[PAIRS * x + (MOST_STATES * r + s)]);
        }
    }
    k
}
