// The reader of bodies: a struct of the lent file and the offset where it goes on (SPEC 11.8).
// Its methods are thin: the work is `body_at`'s.
ghost use Rattle.std.specs.Prelude.{◌≡◌, ◌+◌, ◌≤◌, length};
ghost use Rattle.contents.specs.Part.{part};

// The len bytes of the file from an offset on.
pub fn body_at(file: &[u8], at: usize, len: usize) -> &[u8]
    requires { at + len ≤ length file.now }
    ensures { result.now ≡ part file.now at len }
{
    let end = at + len;
    &file[at..end]
}

#[derive(Clone, Copy)]
pub struct Reader<'a> {
    pub file: &'a [u8],
    pub next: usize,
}

impl<'a> Reader<'a> {
    // The body that stands next.
    pub fn body(self, len: usize) -> &'a [u8]
        requires { self.next + len ≤ length self.file.now }
        ensures { result.now ≡ part self.entry.file.now self.entry.next len }
    {
        body_at(self.file, self.next, len)
    }

    // The reader past the body that stands next.
    pub fn past(self, len: usize) -> Reader<'a>
        requires { self.next + len ≤ length self.file.now }
        ensures { (result.file ≡ self.entry.file) × (result.next ≡ self.entry.next + len) }
    {
        Reader {
            file: self.file,
            next: self.next + len,
        }
    }
}
