// The bodies of a file whose contents are valid, each by its entry.
ghost use Rattle.std.specs.Prelude.{◌≡◌, true, ◌<◌};
ghost use Rattle.contents.specs.Contents.{entry_count, has_form, body_of, target_body, reply_body, record_bytes};
ghost use Rattle.contents.specs.Inner.Located.{Located};

use crate::reader::Reader;
use crate::{Entries, Offsets, RECORD_ENTRY, TARGET_ENTRY, form_entry};

// A file with where its bodies begin.
#[derive(Clone, Copy)]
pub struct Bodies<'a> {
    pub file: &'a [u8],
    pub offsets: Offsets,
    pub ghost located: { Located file.now offsets },
}

impl<'a> Bodies<'a> {
    // The body of entry i.
    fn body(self, i: usize) -> &'a [u8]
        requires { i < entry_count }
        ensures { result.now ≡ body_of self.entry.file.now i }
    {
        let entries = Entries { file: self.file };
        let reader = Reader {
            file: self.file,
            next: self.offsets.at[i],
        };
        reader.body(entries.length_at(i))
    }

    pub fn target(self) -> &'a [u8]
        ensures { result.now ≡ target_body self.entry.file.now }
    {
        self.body(TARGET_ENTRY)
    }

    // The reply form of a code.
    pub fn form(self, code: usize) -> &'a [u8]
        requires { has_form code ≡ true }
        ensures { result.now ≡ reply_body self.entry.file.now code }
    {
        self.body(form_entry(code))
    }

    pub fn record(self) -> &'a [u8]
        ensures { result.now ≡ record_bytes self.entry.file.now }
    {
        self.body(RECORD_ENTRY)
    }
}
