// One place of the board: empty, or an identity with a correction and a mark.
ghost use Rattle.std.specs.Prelude.{◌≡◌};
ghost use Rattle.places.specs.Places.{same_identity, no_place, empty_place, held_identity, held_correction, good_place};

use crate::padding::held_sequence;
use crate::{Identity, Place};
use calendar::{NEVER, limit_of};
use headings::{KIND_WS, KIND_WV, four_letters, good_correction};

// The empty place.
pub const NO_PLACE: Place = Place {
    identity: Identity {
        kind: 0,
        area: 0,
        sequence: 0,
        start: 0,
        end: 0,
    },
    correction: 0,
    marked: false,
};

pub fn no_place() -> Place
    ensures { result ≡ no_place }
{
    NO_PLACE
}

#[tactic(auto, unfolding(crate::specs::Places::same_identity))]
pub fn same_identity(a: Identity, b: Identity) -> bool
    ensures { result ≡ same_identity a b }
{
    a == b
}

#[tactic(auto, unfolding(crate::specs::Places::empty_place, crate::specs::Places::same_identity))]
pub fn empty_place(p: Place) -> bool
    ensures { result ≡ empty_place p }
{
    p == NO_PLACE
}

#[tactic(auto, using(crate::proofs::PlaceLaws::short_enough), unfolding(crate::specs::Places::held_identity, headings::specs::Headings::type_words))]
fn held_identity(clock: u32, i: Identity) -> bool
    ensures { result ≡ held_identity clock i }
{
    let formed = KIND_WS <= i.kind
        && i.kind <= KIND_WV
        && four_letters(i.area)
        && held_sequence(i.sequence);
    let short = i.start < i.end && i.end - i.start <= limit_of(i.kind);
    formed && short && clock < i.end && i.end < NEVER
}

#[tactic(auto, unfolding(crate::specs::Places::held_correction))]
fn held_correction(marked: bool, c: u8) -> bool
    ensures { result ≡ held_correction marked c }
{
    c == 0 || !marked && good_correction(c)
}

#[tactic(auto, unfolding(crate::specs::Places::good_place, crate::specs::Places::held_place))]
pub fn good_place(clock: u32, p: Place) -> bool
    ensures { result ≡ good_place clock p }
{
    empty_place(p) || held_identity(clock, p.identity) && held_correction(p.marked, p.correction)
}
