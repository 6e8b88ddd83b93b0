// The words of heading and first line that have a shape of their own: designator, correction, office and sequence.
#![tactic(auto)]

ghost use Rattle.std.specs.Prelude.{◌≡◌, ◌^◌};
ghost use Rattle.std.specs.List.{list_all};
ghost use Rattle.lists.specs.Choice.{pick, found};
ghost use Rattle.words.specs.Bytes.{between, letter};
ghost use Rattle.figures.specs.Letters.{good_letters};
ghost use Rattle.headings.specs.Headings.{type_of, good_type, good_designator, designator_of, good_correction, correction_of, office_of};
ghost use Rattle.headings.specs.Sequences.{good_sequence, sequence_of};

use figures::{code, letters, three, two};
use words::is_letter;

// A type is kept as its kind in the listing.
pub const KIND_WS: u8 = 2;

pub const KIND_WV: u8 = 3;

// The kind, the two letters in base 256 and the two digits. A record may hold any numbers, and is judged by `good_designator`: so they stay numbers.
#[derive(Clone, Copy, PartialEq, Eq)]
pub struct Designator {
    pub kind: u8,
    pub region: u32,
    pub number: u8,
}

// What the empty record has.
pub const NO_DESIGNATOR: Designator = Designator {
    kind: 0,
    region: 0,
    number: 0,
};

// As written: a letter or 0, how many digits, and the number that they count.
#[derive(Clone, Copy, PartialEq, Eq)]
pub struct Sequence {
    pub letter: u8,
    pub digits: u8,
    pub number: u16,
}

// What the empty record has.
pub const NO_SEQUENCE: Sequence = Sequence {
    letter: 0,
    digits: 0,
    number: 0,
};

fn all_letters(w: &[u8]) -> bool
    ensures { result ≡ list_all letter w.now }
{
    w.iter().all(|x| is_letter(*x))
}

// The number is that of two letters.
#[tactic(auto, using(crate::proofs::HeadingLaws::two_good, crate::proofs::HeadingLaws::two_many))]
pub fn two_letters(n: u32) -> bool
    ensures { result ≡ good_letters 2 n }
{
    let [_, _, first, second] = n.to_be_bytes();
    n < 65536 && all_letters(&[first, second])
}

// The number is that of four letters.
#[tactic(auto, using(crate::proofs::HeadingLaws::four_good))]
pub fn four_letters(n: u32) -> bool
    ensures { result ≡ good_letters 4 n }
{
    all_letters(&n.to_be_bytes())
}

// The kind of a type, `WS` or `WV`.
#[tactic(auto, using(crate::proofs::HeadingLaws::type_codes))]
fn kind_of(w: &[u8]) -> Option<u8>
    ensures { result ≡ found good_type (type_of w.now) }
{
    match code(w) {
        vocabulary::WS => Some(KIND_WS),
        vocabulary::WV => Some(KIND_WV),
        _ => None,
    }
}

#[tactic(auto, unfolding(crate::specs::Headings::good_designator, crate::specs::Headings::type_words))]
pub fn good_designator(d: Designator) -> bool
    ensures { result ≡ good_designator d }
{
    (KIND_WS..=KIND_WV).contains(&d.kind) && two_letters(d.region) && d.number <= 99
}

// The designator that a word is.
#[tactic(auto, using(crate::proofs::HeadingLaws::two_found), unfolding(crate::specs::Headings::designator_of, crate::specs::Headings::good_designator))]
pub fn designator_word(w: &[u8]) -> Option<Designator>
    ensures { result ≡ found good_designator (designator_of w.now) }
{
    if w.len() != 6 {
        return None;
    }
    let kind = kind_of(&w[0..2])?;
    let region = letters(&w[2..4], 2)?;
    let number = two(&w[4..6])?;
    Some(Designator {
        kind,
        region,
        number,
    })
}

#[tactic(auto, unfolding(crate::specs::Headings::good_correction))]
pub fn good_correction(c: u8) -> bool
    ensures { result ≡ good_correction c }
{
    (b'A'..=b'X').contains(&c)
}

// The letter of a correction, `CCA` to `CCX`.
#[tactic(auto, unfolding(crate::specs::Headings::correction_of, crate::specs::Headings::good_correction))]
pub fn correction_word(w: &[u8]) -> Option<u8>
    ensures { result ≡ found good_correction (correction_of w.now) }
{
    match w {
        [b'C', b'C', c] => good_correction(*c).then_some(*c),
        _ => None,
    }
}

// The four letters before the hyphen of an office.
#[tactic(auto, using(crate::proofs::HeadingLaws::four_found, crate::proofs::HeadingLaws::four_none), unfolding(crate::specs::Headings::office_of))]
pub fn office_word(w: &[u8]) -> Option<u32>
    ensures { result ≡ found (good_letters 4) (office_of w.now) }
{
    if w.len() != 5 || w[4] != b'-' {
        return None;
    }
    letters(&w[0..4], 4)
}

// One more than the greatest number of so many digits, 1 to 3; else 1.
fn ten_to(digits: u8) -> u16
    ensures { result ≡ pick (between 1 3 digits) (10 ^ digits) 1 }
{
    match digits {
        1 => 10,
        2 => 100,
        3 => 1000,
        _ => 1,
    }
}

#[tactic(auto, unfolding(crate::specs::Sequences::good_sequence))]
pub fn good_sequence(s: Sequence) -> bool
    ensures { result ≡ good_sequence s }
{
    let bare = s.letter == 0 && (1..=3).contains(&s.digits);
    let lettered = is_letter(s.letter) && (1..=2).contains(&s.digits);
    (bare || lettered) && 0 < s.number && s.number < ten_to(s.digits)
}

// The sequence that a word is.
#[tactic(auto, unfolding(crate::specs::Sequences::sequence_of, crate::specs::Sequences::good_sequence))]
pub fn sequence_word(w: &[u8]) -> Option<Sequence>
    ensures { result ≡ found good_sequence (sequence_of w.now) }
{
    if !(1..=3).contains(&w.len()) {
        return None;
    }
    let (letter, digits) = match w {
        [first, rest @ ..] if is_letter(*first) => (*first, rest),
        _ => (0, w),
    };
    let s = Sequence {
        letter,
        digits: digits.len() as u8,
        number: three(digits)?,
    };
    good_sequence(s).then_some(s)
}
