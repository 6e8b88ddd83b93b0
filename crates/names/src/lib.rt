// Names: one word of a name, the words that close one, and the text of a whole name.
#![tactic(auto)]

ghost use Rattle.std.specs.Prelude.{◌≡◌, eqb, position};
ghost use Rattle.std.specs.List.{list_all};
ghost use Rattle.lists.specs.Choice.{found};
ghost use Rattle.names.specs.Names.{name_byte, name_word, good_closing, closing_of, in_name, name_text};

use figures::code;
use words::is_letter;

fn all_name_bytes(w: &[u8]) -> bool
    ensures { result ≡ list_all name_byte w.now }
{
    w.iter().all(|x| is_letter(*x) || *x == b'-')
}

// A word of letters and hyphens that begins and ends with a letter.
#[tactic(auto, using(crate::proofs::NameLaws::name_bytes), unfolding(crate::specs::Names::name_word))]
pub fn name_word(w: &[u8]) -> bool
    ensures { result ≡ name_word w.now }
{
    let length = w.len();
    0 < length && all_name_bytes(w) && is_letter(w[0]) && is_letter(w[length - 1])
}

// The numbers of the closing words.
pub const CLOSED_BY_FIR: u8 = 1;

pub const CLOSED_BY_FIR_UIR: u8 = 2;

pub const CLOSED_BY_CTA: u8 = 3;

// The number of a closing word, `FIR`, `FIR/UIR` or `CTA`.
#[tactic(auto, using(crate::proofs::NameLaws::closing_codes))]
pub fn closing_word(w: &[u8]) -> Option<u8>
    ensures { result ≡ found good_closing (closing_of w.now) }
{
    match code(w) {
        vocabulary::FIR => Some(CLOSED_BY_FIR),
        vocabulary::FIR_UIR => Some(CLOSED_BY_FIR_UIR),
        vocabulary::CTA => Some(CLOSED_BY_CTA),
        _ => None,
    }
}

// A word that a name may have: a mountain's not `PSN`, an area's no closing word.
#[tactic(auto, using(crate::proofs::NameLaws::mountain_closes, crate::proofs::NameLaws::area_closes))]
pub fn in_name(w: &[u8], mountain: bool) -> bool
    ensures { result ≡ in_name mountain w.now }
{
    let closes = if mountain {
        code(w) == vocabulary::PSN
    } else {
        closing_word(w).is_some()
    };
    name_word(w) && !closes
}

// The text of a name: words that a name may have, parted by single spaces.
pub fn name_text(t: &[u8], mountain: bool) -> bool
    ensures { result ≡ name_text mountain t.now }
{
    t.split(|x| *x == b' ').all(|word| in_name(word, mountain))
}
