// What is new is used: wrapped into elements, and joined with what is settled before and after it.
ghost use Rattle.std.specs.Prelude.{◌<◌};
ghost use Rattle.automata.specs.TargetBody.{target_of};
ghost use Rattle.relaxation.specs.Inner.Pairs.{pair_count};
ghost use Rattle.relaxation.specs.Inner.Relaxation.{Relaxed};
ghost use Rattle.rounds.specs.Inner.Used.{AllKnown, AllInto, Usable, RowsNoted, UseInside, UseAhead, UseBehind, UseRow, UseRows};

use crate::progress::Progress;
use automata::reply::MOST_REPLY_STATES;
use relaxation::elements::Elements;
use relaxation::found::Found;
use relaxation::pairs::members_of;

impl Progress {
    // The elements around what is new in row x.
    fn use_inside(&self, elements: Elements, found: &mut Found, x: usize, next: u16)
        requires { x < pair_count }
        ensures { Relaxed next (UseInside (target_of elements.entry.target.bytes.now) elements.entry.links.now self.now.fresh next x)
            found.old found.new }
    {
        for b in 0..MOST_REPLY_STATES {
            let inside = self.fresh[MOST_REPLY_STATES * x + b];
            if inside != 0 {
                found.around(elements, x, b, inside, next);
            }
        }
    }

    // What is new in row x, and what is settled after it.
    fn use_ahead(&self, found: &mut Found, x: usize, next: u16)
        requires { Usable next self.now.fresh found.old × AllKnown self.now.settled found.old × (x < pair_count) }
        ensures { Relaxed next (UseAhead found.old.lengths self.now.settled self.now.fresh x) found.old found.new }
    {
        for y in members_of(&self.fresh, x) {
            found.join(&self.settled, x, y, next);
        }
    }

    // What leads to x and was settled before, and what is new in row x. `use_ahead` goes over what is new and joins with what is settled;
    // here what is gone over leads to x, and what is new is joined. One function for both would take two tables and which way it goes, and
    // its promise would have a case for each.
    fn use_behind(&self, found: &mut Found, x: usize, next: u16)
        requires { Usable next self.now.fresh found.old × AllInto self.now.into found.old × (x < pair_count) }
        ensures { Relaxed next (UseBehind found.old.lengths self.now.into self.now.fresh x) found.old found.new }
    {
        for w in members_of(&self.into, x) {
            found.join(&self.fresh, w, x, next);
        }
    }

    // What is new in row x is used: as an inside, before what is settled, and after it.
    fn use_row(&self, elements: Elements, found: &mut Found, x: usize, next: u16)
        requires { Usable next self.now.fresh found.old × AllKnown self.now.settled found.old
            × AllInto self.now.into found.old × (x < pair_count) }
        ensures { Relaxed next
            (UseRow (target_of elements.entry.target.bytes.now) elements.entry.links.now found.old.lengths self.now.settled
            self.now.fresh self.now.into next x)
            found.old found.new }
    {
        self.use_inside(elements, found, x, next);
        self.use_ahead(found, x, next);
        self.use_behind(found, x, next);
    }

    // What is new in the rows noted is used.
    pub fn use_rows(
        &self,
        elements: Elements,
        found: &mut Found,
        rows: &[u32; MOST_REPLY_STATES],
        next: u16,
    )
        requires { Usable next self.now.fresh found.old × AllKnown self.now.settled found.old
            × AllInto self.now.into found.old × RowsNoted self.now.fresh rows.now }
        ensures { Relaxed next
            (UseRows (target_of elements.entry.target.bytes.now) elements.entry.links.now found.old.lengths self.now.settled
            self.now.fresh self.now.into next pair_count)
            found.old found.new }
    {
        for x in members_of(rows, 0) {
            self.use_row(elements, found, x, next);
        }
    }
}
