// A sequence as written, its characters filled up to three with spaces, as one number.
ghost use Rattle.std.specs.Prelude.{true, ◌≡◌, ◌+◌, ◌%◌, ◌≤◌, eqb};
ghost use Rattle.lists.specs.Base.{worth};
ghost use Rattle.lists.specs.Choice.{found};
ghost use Rattle.lists.specs.Lists.{index_of};
ghost use Rattle.headings.specs.Sequences.{good_sequence, sequence_of};
ghost use Rattle.places.specs.Padded.{padded_of, held_sequence, unpadded};

use headings::{Sequence, good_sequence, sequence_word};

// The last figure of a number, as its character.
fn figure(n: u16) -> u8
    ensures { result ≡ n % 10 + 48 }
{
    (n % 10) as u8 + b'0'
}

// The characters of a sequence, and spaces behind them.
#[tactic(auto, using(crate::proofs::PaddedLaws::third_digit, crate::proofs::PaddedLaws::second_digit), unfolding(crate::specs::Padded::padded, lists::specs::Base::places, headings::specs::Sequences::spell_sequence))]
fn characters(s: Sequence) -> [u8; 3]
    requires { good_sequence s ≡ true }
    ensures { worth 256 result ≡ padded_of s }
{
    let ones = figure(s.number);
    let tens = figure(s.number / 10);
    match (s.letter, s.digits) {
        (0, 1) => [ones, b' ', b' '],
        (0, 2) => [tens, ones, b' '],
        (0, _) => [figure(s.number / 100), tens, ones],
        (letter, 1) => [letter, ones, b' '],
        (letter, _) => [letter, tens, ones],
    }
}

pub(crate) fn padded(s: Sequence) -> u32
    requires { good_sequence s ≡ true }
    ensures { result ≡ padded_of s }
{
    let [a, b, c] = characters(s);
    u32::from_be_bytes([0, a, b, c])
}

// How many of three characters stand before the first space.
fn before_space(text: [u8; 3]) -> usize
    ensures counted { result ≡ index_of (eqb 32) text }
    ensures within { result ≤ 3 }
{
    text.iter().position(|c| *c == b' ').unwrap_or(3)
}

// The sequence that stands before the first space of three characters.
fn unpad(n: u32) -> Option<Sequence>
    ensures { result ≡ found good_sequence (sequence_of (unpadded n)) }
{
    let [_, a, b, c] = n.to_be_bytes();
    let text = [a, b, c];
    sequence_word(&text[..before_space(text)])
}

#[tactic(auto, using(crate::proofs::PaddedLaws::held_good, crate::proofs::PaddedLaws::held_bad))]
pub(crate) fn held_sequence(n: u32) -> bool
    ensures { result ≡ held_sequence n }
{
    match unpad(n) {
        Some(s) => padded(s) == n,
        None => false,
    }
}
