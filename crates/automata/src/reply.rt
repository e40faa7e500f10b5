// A reply form's body: whether bytes are one, and what it holds. Its bytes are read here and nowhere else.
ghost use Rattle.std.specs.Prelude.{◌≡◌, true, ◌↔◌, ℕ, ◌+◌, ◌<◌, ◌≤◌, ◌^◌, length};
ghost use Rattle.std.proofs.Math.Bool.{decide};
ghost use Rattle.automata.specs.Bits.{bit};
ghost use Rattle.automata.specs.ReplyBody.{most_reply_states, most_rules, form_of, opening_count, closing_count, ValidRule, ValidReply};
ghost use Rattle.automata.specs.Inner.FormState.{IsFormState};
ghost use Rattle.automata.specs.Decide.ReplyBody.{valid_reply?};
ghost use Rattle.automata.specs.ReplyBody.{rule_bytes, rule_offset, opening_rule_at, closing_rule_at};
ghost use Rattle.automata.specs.Inner.Rules.{opening_rule, closing_rule, RulesValid};

use words::numbers::read_two;
use words::tag::CODES;

// The most states of a reply form (SPEC 2.5).
pub const MOST_REPLY_STATES: usize = 8;

const MOST_RULES: usize = 512;

// m, start, the mask and two counts come before the rules.
const REPLY_HEAD: usize = 7;

const RULE_BYTES: usize = 4;

// A rule that an opening tag or a closing tag follows (SPEC 2.6, 2.7).
#[derive(Clone, Copy, Debug, PartialEq, Eq)]
pub struct FormRule {
    pub state: usize,
    pub code: usize,
    pub next: usize,
    pub kept: usize,
}

// The four bytes from p on, read as an opening rule (SPEC 6.8).
fn opening_rule_at(body: &[u8], p: usize) -> FormRule
    requires { p + rule_bytes ≤ length body.now }
    ensures { result ≡ opening_rule_at body.now p }
{
    FormRule {
        state: usize::from(body[p]),
        code: usize::from(body[p + 1]),
        next: usize::from(body[p + 2]),
        kept: usize::from(body[p + 3]),
    }
}

// The same bytes read as a closing rule, which has them in another order.
fn closing_rule_at(body: &[u8], p: usize) -> FormRule
    requires { p + rule_bytes ≤ length body.now }
    ensures { result ≡ closing_rule_at body.now p }
{
    let r = opening_rule_at(body, p);
    FormRule {
        state: r.state,
        kept: r.code,
        code: r.next,
        next: r.kept,
    }
}

// Whether a rule is one of a form with m states.
fn rule_ok(rule: FormRule, m: usize) -> bool
    ensures { (result ≡ true) ↔ ValidRule m rule }
{
    rule.state < m && rule.code < CODES && rule.next < m && rule.kept < m
}

// Whether the first of a body's rules are rules of a form with m states: the opening rules come first, and closing rules after them.
fn rules_ok(body: &[u8], m: usize, openings: usize, rules: usize) -> bool
    requires { rule_offset rules ≤ length body.now }
    ensures { (result ≡ true) ↔ RulesValid body.now m openings rules }
{
    // A loop: its invariant proves it, where `all` would need a proof by hand.
    for i in 0..rules {
        let p = REPLY_HEAD + RULE_BYTES * i;
        let rule = if i < openings {
            opening_rule_at(body, p)
        } else {
            closing_rule_at(body, p)
        };
        if !rule_ok(rule, m) {
            return false;
        }
    }
    true
}

// Whether the bytes are a reply form's body (SPEC 7.14).
pub fn reply_ok(body: &[u8]) -> bool
    ensures { result ≡ decide (valid_reply? body.now) }
{
    if body.len() < REPLY_HEAD {
        return false;
    }
    let m = usize::from(body[0]);
    let openings = read_two(body, 3);
    let closings = read_two(body, 5);
    let rules = openings + closings;
    1 <= m
        && m <= MOST_REPLY_STATES
        && usize::from(body[1]) < m
        && usize::from(body[2]) >> m == 0
        && openings <= MOST_RULES
        && closings <= MOST_RULES
        && body.len() == REPLY_HEAD + RULE_BYTES * rules
        && rules_ok(body, m, openings, rules)
}

// A reply form's body: bytes that are one (SPEC 6.7, 7.14).
#[derive(Clone, Copy)]
pub struct ReplyBody<'a> {
    pub bytes: &'a [u8],
    pub ghost valid: { ValidReply bytes.now },
}

impl<'a> ReplyBody<'a> {
    pub fn start(self) -> usize
        ensures { (result ≡ (form_of self.entry.bytes.now).start) × (result < (form_of self.entry.bytes.now).states) × IsFormState result }
    {
        usize::from(self.bytes[1])
    }

    // The mask of the accepting states.
    pub fn accepting(self) -> u32
        ensures { ((p : ℕ) → bit result p ≡ (form_of self.entry.bytes.now).accepting p) × (result < 2 ^ most_reply_states) }
    {
        u32::from(self.bytes[2])
    }

    // How many opening rules there are, and how many closing ones.
    pub fn openings(self) -> usize
        ensures { (result ≡ opening_count self.entry.bytes.now) × (result ≤ most_rules) }
    {
        read_two(self.bytes, 3)
    }

    pub fn closings(self) -> usize
        ensures { (result ≡ closing_count self.entry.bytes.now) × (result ≤ most_rules) }
    {
        read_two(self.bytes, 5)
    }

    pub fn opening_rule(self, i: usize) -> FormRule
        requires { i < opening_count self.bytes.now }
        ensures { (result ≡ opening_rule self.entry.bytes.now i) × ValidRule most_reply_states result }
    {
        opening_rule_at(self.bytes, REPLY_HEAD + RULE_BYTES * i)
    }

    pub fn closing_rule(self, j: usize) -> FormRule
        requires { j < closing_count self.bytes.now }
        ensures { (result ≡ closing_rule self.entry.bytes.now j) × ValidRule most_reply_states result }
    {
        closing_rule_at(self.bytes, REPLY_HEAD + RULE_BYTES * (self.openings() + j))
    }
}
