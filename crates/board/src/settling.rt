// Where a place goes on the board, and what is dropped before.
ghost use Rattle.std.specs.Prelude.{◌≡◌};
ghost use Rattle.std.specs.List.{position};
ghost use Rattle.places.specs.Places.{empty_place};
ghost use Rattle.places.specs.Refusals.{answer_of};
ghost use Rattle.board.specs.Posts.{kept, dropped, holds, objection, Finds};

use crate::Board;
use places::{Identity, Place, Refusal, empty_place, no_place, same_identity};

fn kept_at(clock: u32, p: Place) -> Place
    ensures { result ≡ kept clock p }
{
    if p.identity.end <= clock {
        return no_place();
    }
    p
}

// Places whose end is at or before the clock become empty where they stand.
pub(crate) fn drop_ended(clock: u32, places: [Place; Board::PLACES]) -> [Place; Board::PLACES]
    ensures { result ≡ dropped clock places }
{
    places.map(|p| kept_at(clock, p))
}

// The place that holds the identity.
fn find(i: Identity, places: [Place; Board::PLACES]) -> Option<usize>
    ensures { result ≡ position (holds i) places }
{
    places.iter().position(|p| same_identity(i, p.identity))
}

// The lowest empty place.
fn find_empty(places: [Place; Board::PLACES]) -> Option<usize>
    ensures { result ≡ position empty_place places }
{
    places.iter().position(|p| empty_place(*p))
}

// What a held place has against one of the same identity.
#[tactic(auto, unfolding(crate::specs::Posts::objection))]
fn object(held: Place, p: Place) -> Result<(), Refusal>
    ensures { answer_of result ≡ objection held p }
{
    if held.marked && !p.marked {
        return Err(Refusal::Marked);
    }
    if held.marked || !p.marked && p.correction <= held.correction {
        return Err(Refusal::Held);
    }
    Ok(())
}

// Where the place goes, or why it does not.
pub(crate) fn spot_of(places: [Place; Board::PLACES], p: Place) -> Result<usize, Refusal>
    ensures { Finds places p result }
{
    if let Some(at) = find(p.identity, places) {
        object(places[at], p)?;
        return Ok(at);
    }
    find_empty(places).ok_or(Refusal::Full)
}
