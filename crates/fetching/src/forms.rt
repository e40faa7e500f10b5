// The rules of every reply form of a file, as relations: compiled once, and then lent to whoever judges replies.
ghost use Rattle.std.specs.Prelude.{◌≡◌, replicate};
ghost use Rattle.fetching.specs.Inner.Forms.{form_relations, FormsOf};

use contents::FORM_CODES;
use job::accepted_file::Accepted;
use replies::transitions::{TRANSITIONS, compile_rules};
use words::tag::CODES;

// A form's relations stand at the place of its code.
pub const FORM_RELATIONS: usize = CODES * TRANSITIONS;

// The relations of an accepted file's forms, written into a table of zeros.
pub fn compile_forms(file: Accepted, table: &mut [u64])
    requires { table.old ≡ replicate form_relations 0 }
    ensures { FormsOf file.entry.file.now table.new }
{
    for c in FORM_CODES {
        compile_rules(file.form(c), &mut table[TRANSITIONS * c..]);
    }
}
