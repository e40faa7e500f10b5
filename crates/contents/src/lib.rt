// The contents of a job file: six entries in one order, and where each body lies.
#![tactic(auto)]

ghost use Rattle.std.specs.Prelude.{◌≡◌, true, ◌+◌, ◌≤◌, ◌<◌, ◌↔◌, length, IsTrue};
ghost use Rattle.contents.specs.Contents.{entry_count, entry_bytes, entry_offset, contents_length, role_at, length_at, has_form};
ghost use Rattle.contents.specs.Contents.{role_kind, role_code, form_entry};
ghost use Rattle.contents.specs.Inner.Due.{due_role};
ghost use Rattle.contents.specs.Inner.Located.{ContentsOf};

use crate::reader::Reader;
use words::numbers::read_two;
use words::vocabulary::fetchable;

pub mod bodies;
pub mod reader;

const ENTRIES: usize = 6;

// The number of entries, before them, and an entry's kind, code and length.
const COUNT_BYTES: usize = 2;

const ENTRY_BYTES: usize = 4;

pub const CONTENTS_LENGTH: usize = COUNT_BYTES + ENTRY_BYTES * ENTRIES;

// What an entry is for (SPEC 6.3).
#[derive(Clone, Copy)]
pub enum Role {
    Target,
    // The reply form of a code.
    Form(u8),
    Record,
}

// The kind and the code by which an entry says so.
impl Role {
    pub fn kind(self) -> u8
        ensures { result ≡ role_kind self }
    {
        match self {
            Role::Target => 1,
            Role::Form(_) => 2,
            Role::Record => 3,
        }
    }

    pub fn code(self) -> u8
        ensures { result ≡ role_code self }
    {
        match self {
            Role::Form(code) => code,
            Role::Target | Role::Record => 0,
        }
    }
}

// What the entries are for, in their order (SPEC 6.4): the target, the forms by rising code, the record.
const ROLES: [Role; ENTRIES] = [
    Role::Target,
    Role::Form(12),
    Role::Form(13),
    Role::Form(14),
    Role::Form(15),
    Role::Record,
];

pub const TARGET_ENTRY: usize = 0;

pub const RECORD_ENTRY: usize = ENTRIES - 1;

// The least code that has a form, and its entry.
const FIRST_FORM: usize = 12;

const FIRST_FORM_ENTRY: usize = TARGET_ENTRY + 1;

// The codes that have a reply form, rising.
pub const FORM_CODES: [usize; 4] = [12, 13, 14, 15];

// Which codes have a reply form.
pub fn has_form(code: usize) -> bool
    ensures { result ≡ has_form code }
{
    fetchable(code)
}

// The entry of the form of a code. Codes are plain numbers here, since they come from tags: a type for those that have a form would be made
// anew at each call.
pub fn form_entry(code: usize) -> usize
    requires { has_form code ≡ true }
    ensures { (result ≡ form_entry code) × (result < entry_count) }
{
    code - FIRST_FORM + FIRST_FORM_ENTRY
}

// Where entry i begins. Entries go by number, as the tables do: a type for a number below six would say no more than the clause.
fn entry_offset(i: usize) -> usize
    requires { i < entry_count }
    ensures { (result ≡ entry_offset i) × (result + entry_bytes ≤ contents_length) }
{
    COUNT_BYTES + ENTRY_BYTES * i
}

// The entries of a file that is long enough for them.
#[derive(Clone, Copy)]
pub struct Entries<'a> {
    pub file: &'a [u8],
    pub ghost long: { contents_length ≤ length file.now },
}

impl<'a> Entries<'a> {
    // Whether entry i is for what is due.
    fn is_due(self, i: usize) -> bool
        requires { i < entry_count }
        ensures { IsTrue result ↔ (role_at self.entry.file.now i ≡ due_role i) }
    {
        let at = entry_offset(i);
        let due = ROLES[i];
        self.file[at] == due.kind() && self.file[at + 1] == due.code()
    }

    // The body length that entry i gives.
    pub fn length_at(self, i: usize) -> usize
        requires { i < entry_count }
        ensures { (result ≡ length_at self.entry.file.now i) × (result < 65536) }
    {
        read_two(self.file, entry_offset(i) + 2)
    }
}

// Where the body of each entry begins.
#[derive(Clone, Copy)]
pub struct Offsets {
    pub at: [usize; ENTRIES],
}

// The contents, in one pass: at each entry a reader goes past its body (SPEC 7.12, 11.8).
pub fn locate(file: &[u8]) -> Option<Offsets>
    requires { contents_length ≤ length file.now }
    ensures { ContentsOf file.now result }
{
    if read_two(file, 0) != ENTRIES {
        return None;
    }
    let entries = Entries { file };
    let mut at = [0; ENTRIES];
    let mut reader = Reader {
        file,
        next: CONTENTS_LENGTH,
    };
    for i in 0..ENTRIES {
        if !entries.is_due(i) {
            return None;
        }
        let len = entries.length_at(i);
        if file.len() - reader.next < len {
            return None;
        }
        at[i] = reader.next;
        reader = reader.past(len);
    }
    if reader.next != file.len() {
        return None;
    }
    Some(Offsets { at })
}
