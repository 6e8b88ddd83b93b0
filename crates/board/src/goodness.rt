// The test of a good board.
ghost use Rattle.std.specs.Prelude.{◌≡◌};
ghost use Rattle.lists.specs.Lists.{all_of};
ghost use Rattle.board.specs.Boards.{in_range, differs, distinct, good_places};

use crate::Board;
use places::{Place, empty_place, good_place, same_identity};

pub(crate) fn in_range(clock: u32) -> bool
    ensures { result ≡ in_range clock }
{
    Board::FIRST_CLOCK <= clock && clock <= Board::LAST_CLOCK
}

// There are 64 places, and all are good.
pub(crate) fn good_places(clock: u32, places: [Place; Board::PLACES]) -> bool
    ensures { result ≡ good_places clock places }
{
    places.iter().all(|p| good_place(clock, *p))
}

// None of the places has the identity of p.
fn differs_from_all(p: Place, places: &[Place]) -> bool
    ensures { result ≡ all_of (differs p) places.now }
{
    places
        .iter()
        .all(|q| !same_identity(p.identity, q.identity))
}

// No identity is held twice.
pub(crate) fn are_distinct(places: [Place; Board::PLACES]) -> bool
    ensures { result ≡ distinct places }
{
    for (i, p) in places.iter().enumerate() {
        if !empty_place(*p) && !differs_from_all(*p, &places[i + 1..]) {
            return false;
        }
    }
    true
}
