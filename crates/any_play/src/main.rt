// Judges any play, reached or not (SPEC 8.19): reads a job and then cases from standard input, and answers each case in one line.
//
// Numbers have their least significant byte first. A job is its length in 4 bytes, then its bytes. A case is a kind (0 advice, 1 read,
// 2 fetch, 3 losing reply), the play (position 4 bytes, state 1, finished count 4, open elements 1, four kept states of 1, four begins
// of 4), the buffer's length in 4 bytes, the reply's in 2, and the reply. A line is the answer's number and the play that is returned;
// then, where a losing reply is given, its bytes in hex. The buffer lent is zeros.
#![tactic(auto)]

ghost use Rattle.std.specs.Prelude.{◌+◌, ◌≤◌, IfSome};
ghost use Rattle.job.specs.File.{largest_file};

use job::loader::LARGEST;
use job::refusal::Refusal;
use output::Output;
use play::Play;
use play::moves::Moved;
use play_advice::advice;
use play_losing::{losing_number, losing_reply};
use std::fmt::Write;
use std::{array, fmt};
use words::numbers::{read_four, read_two};

// Where jobs come from.
const STDIN_FILENO: i32 = 0;

// One byte more than the largest file: a longer job is refused as this one is.
const ROOM: usize = LARGEST + 1;

// The bytes of a job's length.
const LENGTH: usize = 4;

// Where the parts of a case begin, after its kind, and how many bytes there are up to its reply.
const POSITION: usize = 1;

const STATE: usize = 5;

const COUNT: usize = 6;

const DEPTH: usize = 10;

const KEPT: usize = 11;

const BEGINS: usize = 15;

const BUFFER_LENGTH: usize = 31;

const REPLY_LENGTH: usize = 35;

const HEAD: usize = 37;

// The longest buffer lent, and room for any reply.
const LENT: usize = 65536;

// As many bytes are read past at once.
const SKIPPED: usize = 4096;

// What a case asks for. A reply is looked at where it is fetched, and nowhere else.
#[derive(Clone, Copy)]
enum Asked<'a> {
    Advice,
    Read,
    Fetch(&'a [u8]),
    Losing,
}

impl<'a> Asked<'a> {
    // By the kind of a case. Other numbers are no kinds.
    fn of(kind: u8, reply: &'a [u8]) -> Option<Asked<'a>> {
        match kind {
            0 => Some(Asked::Advice),
            1 => Some(Asked::Read),
            2 => Some(Asked::Fetch(reply)),
            3 => Some(Asked::Losing),
            _ => None,
        }
    }
}

// A case, with the length that it gives the buffer.
#[derive(Clone, Copy)]
struct Case<'a> {
    play: Play,
    asked: Asked<'a>,
    room: usize,
}

// The answer's number and the play, as a line has them.
#[derive(Clone, Copy)]
struct Line {
    number: usize,
    play: Play,
}

impl fmt::Display for Line {
    fn fmt<W: fmt::Write>(&self, f: &mut fmt::Formatter<W>) -> fmt::Result {
        let Line { number, play } = *self;
        write!(
            f,
            "{number} {} {} {} {}",
            play.position, play.state, play.count, play.depth
        )?;
        for kept in play.kept {
            write!(f, " {kept}")?;
        }
        for begin in play.begins {
            write!(f, " {begin}")?;
        }
        Ok(())
    }
}

// The play of a case.
fn play_of(head: [u8; HEAD]) -> Play {
    Play {
        position: read_four(&head, POSITION),
        state: usize::from(head[STATE]),
        count: read_four(&head, COUNT),
        depth: usize::from(head[DEPTH]),
        kept: array::from_fn(|i| usize::from(head[KEPT + i])),
        begins: array::from_fn(|i| read_four(&head, BEGINS + 4 * i)),
    }
}

// The line of a move: 0 or its refusal, and the play after it.
fn line_of(moved: Moved) -> Line {
    let number = match moved.answer {
        Ok(()) => 0,
        Err(refusal) => u32::from(refusal) as usize,
    };
    Line {
        number,
        play: moved.play,
    }
}

// The line of advice, which leaves the play as it is.
fn advice_line(play: Play, file: &[u8]) -> Line {
    let number = match advice(play, file) {
        Ok(advised) => u32::from(advised) as usize,
        Err(refusal) => u32::from(refusal) as usize,
    };
    Line { number, play }
}

// The line of a losing reply, with the reply's bytes in hex where there is one.
fn print_losing(out: &mut Output, file: &[u8], play: Play, buffer: &mut [u8]) -> fmt::Result {
    let answer = losing_reply(play, file, buffer);
    let line = Line {
        number: losing_number(answer),
        play,
    };
    write!(out, "{line}")?;
    if let Ok(Some(tags)) = answer {
        write!(out, " ")?;
        for byte in &buffer[..tags] {
            write!(out, "{byte:02x}")?;
        }
    }
    writeln!(out)
}

// The line of a case.
fn print_answer(out: &mut Output, file: &[u8], case: Case) -> fmt::Result {
    let mut buffer = [0u8; LENT];
    let buffer = &mut buffer[..case.room.min(LENT)];
    let play = case.play;
    let line = match case.asked {
        Asked::Advice => advice_line(play, file),
        Asked::Read => line_of(play.read(file, buffer)),
        Asked::Fetch(reply) => line_of(play.fetch(file, reply, buffer)),
        Asked::Losing => return print_losing(out, file, play, buffer),
    };
    writeln!(out, "{line}")
}

// Fills a space with what comes next of the input, or there is not enough.
fn fill(space: &mut [u8]) -> Option<()> {
    if io::read_full(STDIN_FILENO, space) == space.len() {
        Some(())
    } else {
        None
    }
}

// Reads a case, its reply into the buffer. There is none where the input ends before it does, or its kind is no kind.
fn read_case<'a>(buffer: &'a mut [u8; LENT]) -> Option<Case<'a>> {
    let mut head = [0u8; HEAD];
    fill(&mut head)?;
    // A number that is no kind ends the program here, before a reply is waited for.
    Asked::of(head[0], &[])?;
    let reply = &mut buffer[..read_two(&head, REPLY_LENGTH)];
    fill(reply)?;
    let asked = Asked::of(head[0], reply)?;
    Some(Case {
        play: play_of(head),
        asked,
        room: read_four(&head, BUFFER_LENGTH),
    })
}

// Answers cases until there are no more. Each function must be proved to end, and nothing says that the input does: hence the bound.
fn cases(file: &[u8]) -> fmt::Result {
    let mut out = Output;
    for _ in 0..u64::MAX {
        let mut reply = [0u8; LENT];
        let Some(case) = read_case(&mut reply) else {
            break;
        };
        print_answer(&mut out, file, case)?;
    }
    Ok(())
}

// Reads past n bytes, if there are as many. There is no heap, so what has no room in the job's buffer is read in parts.
fn skip(n: usize) -> Option<()> {
    let mut space = [0u8; SKIPPED];
    let mut left = n;
    while 0 < left {
        let part = left.min(SKIPPED);
        fill(&mut space[..part])?;
        left -= part;
    }
    Some(())
}

// Reads a job as far as there is room for it, past the rest of it, and gives how much is kept.
fn read_job(job: &mut [u8; ROOM]) -> Option<usize>
    ensures { IfSome result (λ kept. kept ≤ largest_file + 1) }
{
    let mut head = [0u8; LENGTH];
    fill(&mut head)?;
    let len = read_four(&head, 0);
    let kept = len.min(ROOM);
    fill(&mut job[..kept])?;
    skip(len - kept)?;
    Some(kept)
}

// `Output` never fails. A `main` that gave its result back would have the check count an axiom more than C's `read` and `write`.
fn main() {
    let mut job = [0u8; ROOM];
    if let Some(kept) = read_job(&mut job) {
        let _ = cases(&job[..kept]);
    }
}
