// The scan that judges whether bytes are a well-nested word, and how deep.
ghost use Rattle.std.specs.Prelude.{◌≡◌, ◌≤◌, length};
ghost use Rattle.std.proofs.Math.Bool.{decide};
ghost use Rattle.words.specs.Tag.{word_of, TagBytes};
ghost use Rattle.words.specs.Forest.{WellNested};
ghost use Rattle.words.specs.IsWord.{most_tags};
ghost use Rattle.words.specs.Opened.{open_at};
ghost use Rattle.words.specs.Inner.Rest.{closing_index};
ghost use Rattle.words.specs.Decide.Words.{within_depth?};
ghost use Rattle.words.specs.Inner.Nesting.{judgement, nesting_of};

use crate::bounds::all_below;
use crate::stack::Stack;
use crate::tag::{TAGS, code_of, is_opening};

// The longest record (SPEC 6.10), and the longest reply that may arrive (SPEC 5.10).
pub const MOST_TAGS: usize = 4096;

// Why bytes are no well-nested word of at most MOST_TAGS tags.
#[derive(Clone, Copy, Debug, PartialEq, Eq)]
pub enum NoWord {
    // More than MOST_TAGS.
    TooLong,
    // A byte that is no tag.
    NoTag,
    IllNested,
}

// The pass from left to right, and the depth that it finds. On the stack are the codes of the open elements, and an ill-nested word may
// open one with each tag.
fn scan(s: &[u8]) -> Result<usize, NoWord>
    requires { (length s.now ≤ most_tags) × TagBytes s.now }
    ensures { result ≡ nesting_of (word_of s.now) }
{
    let mut open = Stack::<MOST_TAGS>::new();
    let mut most: usize = 0;
    for &b in s {
        if is_opening(b) {
            open.push(b);
            most = most.max(open.len());
        } else {
            let Some(newest) = open.pop() else {
                return Err(NoWord::IllNested);
            };
            if usize::from(newest) != code_of(b) {
                return Err(NoWord::IllNested);
            }
        }
    }
    if open.is_empty() {
        Ok(most)
    } else {
        Err(NoWord::IllNested)
    }
}

// The depth of a well-nested word, or why bytes are none: any bytes whatever are judged.
pub fn judge(s: &[u8]) -> Result<usize, NoWord>
    ensures { result ≡ judgement s.now }
{
    if MOST_TAGS < s.len() {
        return Err(NoWord::TooLong);
    }
    if all_below(s, 0, TAGS) {
        scan(s)
    } else {
        Err(NoWord::NoTag)
    }
}

// Whether bytes are a well-nested word of at most MOST_TAGS tags with at most `most` elements open together.
pub fn within_depth(s: &[u8], most: usize) -> bool
    ensures { result ≡ decide (within_depth? most s.now) }
{
    judge(s).is_ok_and(|depth| depth <= most)
}

// How many elements are open at a position of a word.
pub fn open_at(word: &[u8], position: usize) -> usize
    requires { WellNested (word_of word.now) × (position ≤ length word.now) }
    ensures { result ≡ open_at (word_of word.now) position }
{
    let mut count: usize = 0;
    for &b in &word[..position] {
        if is_opening(b) {
            count += 1;
        } else {
            count -= 1;
        }
    }
    count
}

// The index of the first closing tag of an element that was open before.
pub fn closing_index(rest: &[u8]) -> usize
    ensures { result ≡ closing_index (word_of rest.now) 0 }
{
    let mut count: usize = 0;
    for (i, &b) in rest.iter().enumerate() {
        if is_opening(b) {
            count += 1;
        } else {
            if count == 0 {
                return i;
            }
            count -= 1;
        }
    }
    rest.len()
}
