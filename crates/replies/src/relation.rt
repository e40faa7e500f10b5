// Relations on the states of a reply form, in 64 bits: bit 8a + b says that a is related to b.
ghost use Rattle.std.specs.Prelude.{◌≡◌, ◌<◌, ◌^◌};
ghost use Rattle.std.specs.Int.Bits.{bit_or};
ghost use Rattle.automata.specs.Bits.{bit};
ghost use Rattle.automata.specs.Inner.FormState.{IsFormState};
ghost use Rattle.replies.specs.Inner.Links.{pairs, pair_index};
ghost use Rattle.replies.specs.Inner.Relation.{RowOf, ColumnOf, Composed};

use automata::reply::MOST_REPLY_STATES;

// A relation has a bit for each two states of the form: 64.
pub const PAIRS: usize = MOST_REPLY_STATES * MOST_REPLY_STATES;

// Each state is related to itself alone.
pub const IDENTITY: u64 = 0x8040_2010_0804_0201;

// Each state is related to state 0 alone.
const FIRST_COLUMN: u64 = 0x0101_0101_0101_0101;

// A row is a mask of states, one of so many.
const ROW_MASKS: u64 = 1 << MOST_REPLY_STATES;

// Whether a pair, by its bit, is related. `automata::bits::has` asks the same of 32 bits, and `with` there adds one as `with_pair` does: a
// trait over the two widths would be longer than the two lines that it saves.
pub fn has_pair(m: u64, i: usize) -> bool
    requires { i < pairs }
    ensures { result ≡ bit m i }
{
    (m >> i) % 2 == 1
}

// With a related to b too.
pub fn with_pair(m: u64, a: usize, b: usize) -> u64
    requires { IsFormState a × IsFormState b }
    ensures { result ≡ bit_or m (2 ^ pair_index a b) }
{
    m | (1 << (MOST_REPLY_STATES * a + b))
}

// The states that a is related to.
fn row(m: u64, a: usize) -> u64
    requires { IsFormState a }
    ensures { RowOf m a result }
{
    (m >> (MOST_REPLY_STATES * a)) % ROW_MASKS
}

// The states that are related to b, each at the first bit of its row.
fn column(m: u64, b: usize) -> u64
    requires { IsFormState b }
    ensures { ColumnOf m b result }
{
    (m >> b) & FIRST_COLUMN
}

// x, and then y: a column of x times a row of y has that row at each state of the column, and no two of them overlap.
pub fn compose(x: u64, y: u64) -> u64
    ensures { Composed x y result }
{
    let mut m = 0;
    for p in 0..MOST_REPLY_STATES {
        m |= column(x, p) * row(y, p);
    }
    m
}
