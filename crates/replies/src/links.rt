// The links of a reply form: which of its rules belong together.
ghost use Rattle.std.specs.Prelude.{◌≡◌, ◌<◌, length, replicate};
ghost use Rattle.words.specs.Tag.{IsCode};
ghost use Rattle.automata.specs.ReplyBody.{form_of, opening_count};
ghost use Rattle.automata.specs.Inner.FormState.{IsFormState};
ghost use Rattle.replies.specs.Inner.Links.{link_count, link_index, LinksOf};
ghost use Rattle.replies.specs.Inner.Linking.{linkings};

use crate::relation::PAIRS;
use automata::reply::{MOST_REPLY_STATES, ReplyBody};
use words::tag::CODES;

// A mask of states for each code and each three states.
pub const LINKS: usize = CODES * CODE_LINKS;

pub const CODE_LINKS: usize = MOST_REPLY_STATES * PAIRS;

// Where the mask for an element of code c from p, within it from q to r, stands.
pub fn link_index(c: usize, p: usize, q: usize, r: usize) -> usize
    requires { IsCode c × IsFormState p × IsFormState q × IsFormState r }
    ensures { (result ≡ link_index c p q r) × (result < link_count) }
{
    CODE_LINKS * c + (PAIRS * p + (MOST_REPLY_STATES * q + r))
}

// Links opening rule i with each closing rule that has its code and its kept state.
fn link_opening(body: ReplyBody, i: usize, links: &mut [u8])
    requires { (i < opening_count body.bytes.now) × (length links.old ≡ link_count) }
    ensures { links.new ≡ linkings body.entry.bytes.now i links.old }
{
    let o = body.opening_rule(i);
    for j in 0..body.closings() {
        let c = body.closing_rule(j);
        if o.code == c.code && o.kept == c.kept {
            links[link_index(o.code, o.state, o.next, c.state)] |= 1 << c.next;
        }
    }
}

// The links of a form's rules, written into a table of zeros.
pub fn compile(body: ReplyBody, links: &mut [u8])
    requires { links.old ≡ replicate link_count 0 }
    ensures { LinksOf (form_of body.entry.bytes.now) links.new }
{
    for i in 0..body.openings() {
        link_opening(body, i, links);
    }
}
