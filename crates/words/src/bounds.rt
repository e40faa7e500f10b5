// Bytes below a bound: tags, states.
ghost use Rattle.std.specs.Prelude.{◌≡◌, true, ◌↔◌};
ghost use Rattle.words.specs.Inner.BytesBelow.{BytesBelow};

// Whether every byte from index p on is below n.
pub fn all_below(bytes: &[u8], p: usize, n: usize) -> bool
    ensures { (result ≡ true) ↔ BytesBelow bytes.now p n }
{
    bytes.iter().skip(p).all(|b| usize::from(*b) < n)
}
