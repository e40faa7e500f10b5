// The rules of a reply form as relations: for each code and kept state, where an opening tag leads and where a closing tag leads.
ghost use Rattle.std.specs.Prelude.{◌≡◌, ◌<◌, ◌≤◌, ◌^◌, length};
ghost use Rattle.words.specs.Tag.{tag_bytes};
ghost use Rattle.automata.specs.ReplyBody.{form_of, most_reply_states, ValidRule};
ghost use Rattle.automata.specs.Inner.MaskTable.{put};
ghost use Rattle.replies.specs.Inner.Links.{pair_index};
ghost use Rattle.replies.specs.Inner.Transitions.{transition_count, relation_at, Bare, Compiled};

use crate::relation::with_pair;
use automata::reply::{FormRule, MOST_REPLY_STATES, ReplyBody};
use words::tag::{CODES, closing_tag};

// A relation for each code and kept state.
pub const RULE_RELATIONS: usize = CODES * MOST_REPLY_STATES;

// The opening rules' relations come first.
pub const TRANSITIONS: usize = 2 * RULE_RELATIONS;

// A rule relates its state to the next one, at its tag's byte and kept state.
fn put_rule(table: &mut [u64], tag: usize, rule: FormRule)
    requires { (transition_count ≤ length table.old) × (tag < tag_bytes) × ValidRule most_reply_states rule }
    ensures { table.new ≡ put table.old (relation_at tag rule.kept) (2 ^ pair_index rule.state rule.next) }
{
    let at = MOST_REPLY_STATES * tag + rule.kept;
    table[at] = with_pair(table[at], rule.state, rule.next);
}

// The relations of a form's rules, written into a table of zeros. Each rule is put by itself: `links::compile` puts pairs of them.
pub fn compile_rules(body: ReplyBody, table: &mut [u64])
    requires { (transition_count ≤ length table.old) × Bare 0 table.old }
    ensures { Compiled (form_of body.entry.bytes.now) 0 table.old table.new }
{
    for i in 0..body.openings() {
        let o = body.opening_rule(i);
        put_rule(table, o.code, o);
    }
    for j in 0..body.closings() {
        let c = body.closing_rule(j);
        put_rule(table, closing_tag(c.code), c);
    }
}
