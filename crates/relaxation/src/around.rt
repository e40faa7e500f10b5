// The elements around an inside that is known: where they lead, by the links of the form's rules and by the target.
ghost use Rattle.std.specs.Prelude.{◌≡◌, ◌<◌, length};
ghost use Rattle.words.specs.Tag.{IsCode};
ghost use Rattle.automata.specs.TargetBody.{most_states, target_of};
ghost use Rattle.automata.specs.Inner.FormState.{IsFormState};
ghost use Rattle.replies.specs.Inner.Links.{link_count};
ghost use Rattle.relaxation.specs.Inner.Pairs.{pair_count};
ghost use Rattle.relaxation.specs.Inner.Wraps.{image_of, closing_step, SomeLink};
ghost use Rattle.relaxation.specs.Inner.Relaxation.{Relaxed, LinkedEnds, Around, AroundState, AroundAny};

use crate::elements::Elements;
use crate::found::Found;
use automata::bits::{states_in, with};
use automata::reply::MOST_REPLY_STATES;
use automata::target::{MOST_STATES, TargetBody};
use replies::links::link_index;
use words::tag::CODES;

// Where a closing tag of code c leads, with q taken back, from the states of a mask.
fn image(target: TargetBody, mask: u32, q: usize, c: usize) -> u32
    requires { (q < (target_of target.bytes.now).states) × IsCode c }
    ensures { result ≡ image_of (closing_step (target_of target.entry.bytes.now) q c) mask (target_of target.entry.bytes.now).states }
{
    let n = target.states();
    let mut found: u32 = 0;
    for r in states_in(mask) {
        if r < n {
            found = with(found, target.close_to(r, q, c));
        }
    }
    found
}

// Whether the links have an element of code c whose inside leads from form state a to b.
pub fn linked(links: &[u8], c: usize, a: usize, b: usize) -> bool
    requires { (length links.now ≡ link_count) × IsCode c × IsFormState a × IsFormState b }
    ensures { SomeLink links.now c a b result }
{
    for p in 0..MOST_REPLY_STATES {
        if links[link_index(c, p, a, b)] != 0 {
            return true;
        }
    }
    false
}

impl Found {
    // `next` elements lead from x to the form states of a link with the target states of a mask.
    fn around_link(&mut self, x: usize, link: u8, mask: u32, next: u16)
        requires { x < pair_count }
        ensures { Relaxed next (LinkedEnds x link mask next) self.old self.new }
    {
        for r in states_in(u32::from(link)) {
            self.relax_ends(x, r, mask, next);
        }
    }

    // Every element of code c whose inside leads from form state a to b leads from target state q to the states of a mask.
    fn around_state(
        &mut self,
        elements: Elements,
        c: usize,
        q: usize,
        a: usize,
        b: usize,
        mask: u32,
        next: u16,
    )
        requires { IsCode c × (q < most_states) × IsFormState a × IsFormState b }
        ensures { Relaxed next (AroundState elements.entry.links.now c q a b mask next) self.old self.new }
    {
        for p in 0..MOST_REPLY_STATES {
            let link = elements.links[link_index(c, p, a, b)];
            if link != 0 {
                self.around_link(MOST_STATES * p + q, link, mask, next);
            }
        }
    }

    // The elements of code c whose inside leads from pair y to form state b and the target states `inside`. It stands by itself, so that
    // the loop of `around` over the codes, most of which no rule has, goes from register to register.
    #[inline(never)]
    fn around_code(
        &mut self,
        elements: Elements,
        y: usize,
        b: usize,
        inside: u32,
        c: usize,
        next: u16,
    )
        requires { (y < pair_count) × IsFormState b × IsCode c }
        ensures { Relaxed next
            (λ x' z' k'. Around (target_of elements.entry.target.bytes.now) elements.entry.links.now y b inside next x' z' k' c)
            self.old self.new }
    {
        let target = elements.target;
        let n = target.states();
        for q in 0..n {
            if target.open_to(q, c) == y % MOST_STATES {
                let mask = image(target, inside, q, c);
                self.around_state(elements, c, q, y / MOST_STATES, b, mask, next);
            }
        }
    }

    // The elements of every code whose inside leads from pair y to form state b and the target states `inside`: they have `next` elements.
    pub fn around(&mut self, elements: Elements, y: usize, b: usize, inside: u32, next: u16)
        requires { (y < pair_count) × IsFormState b }
        ensures { Relaxed next
            (AroundAny (target_of elements.entry.target.bytes.now) elements.entry.links.now y b inside next)
            self.old self.new }
    {
        for c in 0..CODES {
            if linked(elements.links, c, y / MOST_STATES, b) {
                self.around_code(elements, y, b, inside, c, next);
            }
        }
    }
}
