// Lawful replies: a pass over the word with, for each open element, the runs over what has passed of its inside.
ghost use Rattle.std.specs.Prelude.{◌≡◌, true, ◌↔◌, ℕ, ◌≤◌, length};
ghost use Rattle.std.proofs.Math.Bool.{decide};
ghost use Rattle.words.specs.Tag.{word_of, IsCode};
ghost use Rattle.automata.specs.Bits.{bit};
ghost use Rattle.automata.specs.Small.{Small};
ghost use Rattle.automata.specs.Reply.{Form};
ghost use Rattle.automata.specs.ReplyBody.{most_reply_states, form_of};
ghost use Rattle.automata.specs.Inner.FormState.{IsFormState};
ghost use Rattle.automata.proofs.Lawful.{lawful?};
ghost use Rattle.replies.specs.Inner.Relation.{Related, Relates, FewStates};
ghost use Rattle.replies.specs.Inner.Transitions.{transition_count, TransitionsOf, ElementOf};

use crate::relation::{IDENTITY, compose, has_pair};
use crate::transitions::RULE_RELATIONS;
use automata::bits::has;
use automata::reply::{MOST_REPLY_STATES, ReplyBody};
use automata::target::MOST_REPLY_DEPTH;
use words::tag::{code_of, is_opening};

// A relation for each open element, and one for the word itself.
const RELATIONS: usize = MOST_REPLY_DEPTH + 1;

// From where an element of code c begins to where it ends, by the relation of what is within it: for each state that may be kept, opened,
// then what is within, then closed.
pub fn over_element(table: &[u64], c: usize, inside: u64) -> u64
    requires { (transition_count ≤ length table.now) × IsCode c }
    ensures { ElementOf table.now 0 c inside most_reply_states result }
{
    let mut m = 0;
    for k in 0..MOST_REPLY_STATES {
        let opened = table[MOST_REPLY_STATES * c + k];
        if opened != 0 {
            let closed = table[RULE_RELATIONS + (MOST_REPLY_STATES * c + k)];
            m |= compose(compose(opened, inside), closed);
        }
    }
    m
}

// The runs over a word. `open` has a relation for each open element, from where its inside begins to where the pass is, and `count` is how
// many are open. `words::stack::Stack` is of bytes, and these are relations of 64 bits; one struct for both would need an array of a type
// parameter, which no struct can hold. Memory is fixed, so there is no Vec.
fn runs(table: &[u64], word: &[u8]) -> u64
    requires { (transition_count ≤ length table.now) × Small word.now }
    ensures { (F : Form) → TransitionsOf F 0 table.now → FewStates F → Relates F (word_of word.now) result }
{
    let mut open = [IDENTITY; RELATIONS];
    let mut count = 0;
    for b in word {
        if is_opening(*b) {
            count += 1;
            open[count] = IDENTITY;
        } else {
            let inside = open[count];
            count -= 1;
            open[count] = compose(open[count], over_element(table, code_of(*b), inside));
        }
    }
    open[0]
}

// Whether a state is related to one of the mask.
fn meets(m: u64, a: usize, mask: u32) -> bool
    requires { IsFormState a }
    ensures { (result ≡ true) ↔ ((t : ℕ) × IsFormState t × Related m a t × (bit mask t ≡ true)) }
{
    (0..MOST_REPLY_STATES).any(|i| has_pair(m, MOST_REPLY_STATES * a + i) && has(mask, i))
}

// Whether a word is a lawful reply of a form (SPEC 2.8), by the table of its rules.
pub fn is_lawful(table: &[u64], body: ReplyBody, word: &[u8]) -> bool
    requires { TransitionsOf (form_of body.bytes.now) 0 table.now × Small word.now }
    ensures { result ≡ decide (lawful? (form_of body.entry.bytes.now) (word_of word.now)) }
{
    let m = runs(table, word);
    meets(m, body.start(), body.accepting())
}
