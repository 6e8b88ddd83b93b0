// One place of a board, and what a message claims.
#![tactic(auto)]

mod claims;
mod padding;
mod places;
mod refusals;

pub use claims::claim_of;
pub use places::{NO_PLACE, empty_place, good_place, no_place, same_identity};
pub use refusals::Refusal;

// The type as its kind in the listing, 2 WS or 3 WV; the area's letters and the sequence's characters, filled up to three with spaces, in
// base 256; start and end in minutes from 2000-01-01 0000Z.
#[derive(Clone, Copy, Debug, PartialEq, Eq)]
pub struct Identity {
    pub kind: u8,
    pub area: u32,
    pub sequence: u32,
    pub start: u32,
    pub end: u32,
}

// The correction is its letter, or 0 for none. All zero is an empty place: values and no Options, for a board may come with any places, and
// `good_place` and the theorems on any board judge and name them all.
#[derive(Clone, Copy, Debug, PartialEq, Eq)]
pub struct Place {
    pub identity: Identity,
    pub correction: u8,
    pub marked: bool,
}
