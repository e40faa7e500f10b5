// Numbers in several bytes, the least significant one first (SPEC 6.1).
ghost use Rattle.std.specs.Prelude.{◌≡◌, ◌+◌, ◌<◌, ◌≤◌, ◌^◌, length};
ghost use Rattle.words.specs.Numbers.{two, four};

// The number of two bytes at i, and of four.
pub fn read_two(bytes: &[u8], i: usize) -> usize
    requires { i + 2 ≤ length bytes.now }
    ensures { (result ≡ two bytes.now i) × (result < 65536) }
{
    usize::from(u16::from_le_bytes([bytes[i], bytes[i + 1]]))
}

pub fn read_four(bytes: &[u8], i: usize) -> usize
    requires { i + 4 ≤ length bytes.now }
    ensures { (result ≡ four bytes.now i) × (result < 2 ^ 32) }
{
    // `as`, since usize has no From<u32>.
    u32::from_le_bytes([bytes[i], bytes[i + 1], bytes[i + 2], bytes[i + 3]]) as usize
}
