// Tags as bytes: c opens an element of code c, and 16 + c closes it (SPEC 1.2).
ghost use Rattle.std.specs.Prelude.{◌≡◌, ◌<◌};
ghost use Rattle.words.specs.Tag.{IsCode, tag_bytes, closing, byte_of};
ghost use Rattle.words.specs.Inner.TagByte.{OpensAt, CodeIs};

// How many codes there are, and how many tags.
pub const CODES: usize = 16;

pub const TAGS: usize = 32;

pub fn is_opening(b: u8) -> bool
    ensures { OpensAt b result }
{
    usize::from(b) < CODES
}

pub fn code_of(b: u8) -> usize
    requires { b < tag_bytes }
    ensures { CodeIs b result }
{
    usize::from(b) % CODES
}

// The byte of a code's closing tag.
pub fn closing_tag(code: usize) -> usize
    requires { IsCode code }
    ensures { (result ≡ byte_of (closing code)) × (result < tag_bytes) }
{
    CODES + code
}
