// The elements that a form's replies may have on a target.
ghost use Rattle.std.specs.Prelude.{◌≡◌, length};
ghost use Rattle.replies.specs.Inner.Links.{link_count};

use automata::target::TargetBody;

// A target, and the links of a form: the elements that may lead from one pair to another.
#[derive(Clone, Copy)]
pub struct Elements<'a> {
    pub target: TargetBody<'a>,
    pub links: &'a [u8],
    pub ghost sized: { length links.now ≡ link_count },
}
