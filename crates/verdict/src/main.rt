// Reads one job from standard input and prints the verdict, then for each code that has a form and each state of the target the states that
// are reached, with how short a reply can be that reaches them (SPEC 8.16 to 8.18).
#![tactic(auto)]

ghost use Rattle.std.specs.Prelude.{◌<◌, ◌≤◌, length};
ghost use Rattle.words.specs.Tag.{codes};
ghost use Rattle.automata.specs.TargetBody.{most_states};

use automata::target::MOST_STATES;
use contents::has_form;
use effects::{Effects, Shortest};
use job::loader::LARGEST;
use output::Output;
use solver::verdict::{Report, report_on};
use std::fmt::Write;
use std::{fmt, str};
use words::tag::CODES;
use words::vocabulary::lookup;

// Where jobs come from.
const STDIN_FILENO: i32 = 0;

// One byte more than the largest file: an input that fills it is too long, however long it is.
const ROOM: usize = LARGEST + 1;

// A state, and how short a reply can be that reaches it: nothing is printed of one that is not reached.
#[derive(Clone, Copy)]
struct Reached {
    state: usize,
    shortest: Shortest,
}

impl fmt::Display for Reached {
    fn fmt<W: fmt::Write>(&self, f: &mut fmt::Formatter<W>) -> fmt::Result {
        let state = self.state;
        match self.shortest {
            Shortest::Unreached => Ok(()),
            Shortest::Tags(n) => write!(f, " {state}/{n}"),
            Shortest::Longer => write!(f, " {state}/long"),
        }
    }
}

// One line of the listing (SPEC 8.16): the states that are reached from q, in rising order.
fn print_row(out: &mut Output, effects: &Effects, code: usize, q: usize) -> fmt::Result
    requires { (code < codes) × (q < most_states) }
{
    // A name is of letters, and is written at once.
    let name = str::from_utf8(lookup(code).name).map_err(|_| fmt::Error)?;
    write!(out, "{name} {q}:")?;
    for state in 0..MOST_STATES {
        let reached = Reached {
            state,
            shortest: effects.at(code, q, state),
        };
        write!(out, "{reached}")?;
    }
    writeln!(out)
}

// The listing: the lines of every code that has a form, by rising code, one for each of the target's states.
fn print_listing(out: &mut Output, report: &Report) -> fmt::Result
    requires { report.now.states ≤ most_states }
{
    for code in 0..CODES {
        if has_form(code) {
            for q in 0..report.states {
                print_row(out, &report.effects, code, q)?;
            }
        }
    }
    Ok(())
}

// What is printed for an input: its refusal, or the verdict and the listing.
fn print_answer(out: &mut Output, file: &[u8]) -> fmt::Result {
    match report_on(file) {
        Err(refusal) => writeln!(out, "refused {}", u32::from(refusal)),
        Ok(report) => {
            let verdict = if report.won {
                "verdict yes\n"
            } else {
                "verdict no\n"
            };
            out.write_str(verdict)?;
            print_listing(out, &report)
        }
    }
}

// `Output` never fails. A `main` that gave its result back would have the check count an axiom more than C's `read` and `write`.
fn main() {
    let mut buffer = [0u8; ROOM];
    let n = io::read_full(STDIN_FILENO, &mut buffer);
    let _ = print_answer(&mut Output, &buffer[..n]);
}
