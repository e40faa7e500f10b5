// What the search for the first reply reads and never changes: a target and a form's links, rules and least lengths.
ghost use Rattle.std.specs.Prelude.{◌≡◌, true, ◌↔◌, ◌<◌};
ghost use Rattle.relaxation.specs.Inner.Pairs.{pair_count};
ghost use Rattle.relaxation.specs.Inner.Lengths.{length_of};
ghost use Rattle.shortest.specs.Inner.Stops.{GoesOver};

use automata::target::TargetBody;
use relaxation::pairs::{LENGTHS, PAIRS};
use replies::links::LINKS;

// The least lengths from pairs to pairs.
#[derive(Clone, Copy)]
pub struct Lengths<'a> {
    pub table: &'a [u16; LENGTHS],
}

impl<'a> Lengths<'a> {
    pub fn between(self, x: usize, z: usize) -> u16
        requires { (x < pair_count) × (z < pair_count) }
        ensures { result ≡ length_of self.entry.table.now x z }
    {
        self.table[PAIRS * x + z]
    }

    // Whether a shortest way from x to z goes on from y after e elements.
    pub fn goes_over(self, x: usize, y: usize, z: usize, e: usize) -> bool
        requires { (x < pair_count) × (y < pair_count) × (z < pair_count) × (e < 65536) }
        ensures { (result ≡ true) ↔ GoesOver self.entry.table.now x y z e }
    {
        usize::from(self.between(x, z)) == e + usize::from(self.between(y, z))
    }
}

#[derive(Clone, Copy)]
pub struct Tables<'a> {
    pub target: TargetBody<'a>,
    pub links: &'a [u8; LINKS],
    pub rules: &'a [u64],
    pub lengths: Lengths<'a>,
}
