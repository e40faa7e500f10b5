// The vocabulary as a constant table, looked up by code (SPEC 1.7, 11.7).
ghost use Rattle.std.specs.Prelude.{◌≡◌, ◌<◌};
ghost use Rattle.words.specs.Tag.{codes};
ghost use Rattle.words.specs.Vocabulary.{fetchable as is_fetchable};
ghost use Rattle.words.specs.Inner.Term.{term_of, view};

use crate::tag::CODES;

// A name, and whether an element of this code can be fetched.
#[derive(Clone, Copy)]
pub struct Term {
    pub name: &'static [u8],
    pub fetchable: bool,
}

const VOCABULARY: [Term; CODES] = [
    Term {
        name: b"project",
        fetchable: false,
    },
    Term {
        name: b"object",
        fetchable: false,
    },
    Term {
        name: b"element",
        fetchable: false,
    },
    Term {
        name: b"sample",
        fetchable: false,
    },
    Term {
        name: b"series",
        fetchable: false,
    },
    Term {
        name: b"ring",
        fetchable: false,
    },
    Term {
        name: b"species",
        fetchable: false,
    },
    Term {
        name: b"sapwood",
        fetchable: false,
    },
    Term {
        name: b"match",
        fetchable: false,
    },
    Term {
        name: b"date",
        fetchable: false,
    },
    Term {
        name: b"place",
        fetchable: false,
    },
    Term {
        name: b"note",
        fetchable: false,
    },
    Term {
        name: b"getmatch",
        fetchable: true,
    },
    Term {
        name: b"getsap",
        fetchable: true,
    },
    Term {
        name: b"getspec",
        fetchable: true,
    },
    Term {
        name: b"getplace",
        fetchable: true,
    },
];

// The vocabulary's entry for a code.
pub fn lookup(code: usize) -> Term
    requires { code < codes }
    ensures { view result ≡ term_of code }
{
    // Through a reference, so that the table stands in the program: it is built anew wherever the array itself is indexed, which makes a
    // verdict a sixth slower.
    let terms = &VOCABULARY;
    terms[code]
}

// Whether elements of a code can be fetched (SPEC 1.8). A number above 15 is no code, and the answer is no.
pub fn fetchable(code: usize) -> bool
    ensures { result ≡ is_fetchable code }
{
    code < CODES && lookup(code).fetchable
}
