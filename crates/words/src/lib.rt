// Bytes to words: refusal numbers 1 to 3 with place and length, and the word at a place of the text before `=`, with its length.
#![tactic(auto)]

ghost use Rattle.std.specs.Prelude.{◌≡◌};
ghost use Rattle.words.specs.Bytes.{letter, digit};
ghost use Rattle.words.specs.Check.{check_of, told};
ghost use Rattle.words.specs.Words.{span_of, length_at};

mod bytes;
mod one_walk;
mod table;
mod walks;

use bytes::{is_blank, is_solid};

// Why no words can be read: too few bytes or too many; the byte at this place is not allowed; there is no `=` in this many bytes; or the byte at
// this place, behind the first `=`, is no blank. `told` has the refusal number, the place and the length of each.
#[derive(Clone, Copy, PartialEq, Eq, Debug)]
pub enum Fault {
    Length,
    Barred(usize),
    NoEquals(usize),
    Behind(usize),
}

// Where a word begins, and where it ends: the end is not counted.
#[derive(Clone, Copy, PartialEq, Eq)]
pub struct Span {
    pub start: usize,
    pub end: usize,
}

pub fn is_letter(x: u8) -> bool
    ensures { result ≡ letter x }
{
    b'A' <= x && x <= b'Z'
}

pub fn is_digit(x: u8) -> bool
    ensures { result ≡ digit x }
{
    b'0' <= x && x <= b'9'
}

// The most bytes that a bulletin may have.
const MOST_BYTES: usize = 2048;

// Where the first `=` stands, if words can be read from these bytes. All tests of the bytes in one walk.
#[tactic(auto, using(crate::proofs::Refusals::refusals))]
pub fn check(bulletin: &[u8]) -> Result<usize, Fault>
    ensures { told result ≡ check_of bulletin.now }
{
    let length = bulletin.len();
    if length == 0 || MOST_BYTES < length {
        return Err(Fault::Length);
    }
    one_walk::walk(bulletin, &table::kinds())
}

// The next word of the text from a place on: empty, at the text's length, where only blanks are left (past the text, at the place).
#[tactic(auto, unfolding(crate::specs::Words::span_of))]
pub fn word_at(text: &[u8], place: usize) -> Span
    ensures { result ≡ span_of text.now place }
{
    let start = walks::first(text, place, is_solid);
    let end = walks::first(text, start, is_blank);
    Span { start, end }
}

// The length of the next word of the text from a place on; the `=` behind the text is a word of one byte.
#[tactic(auto, using(crate::proofs::NextWord::lengths))]
pub fn length_at(text: &[u8], place: usize) -> usize
    ensures { result ≡ length_at text.now place }
{
    let next = word_at(text, place);
    if next.start == next.end {
        return 1;
    }
    next.end - next.start
}
