// The board: 64 places of messages that have not ended, by value.
#![tactic(auto)]

ghost use Rattle.std.specs.Prelude.{◌≡◌};
ghost use Rattle.places.specs.Refusals.{answer_of};
ghost use Rattle.board.specs.Boards.{good_board, empty_board, refusal_at};
ghost use Rattle.board.specs.Posts.{posted_on, post_of};

mod goodness;
mod settling;

use goodness::{are_distinct, good_places, in_range};
use message::Record;
use places::{Place, Refusal, claim_of, no_place};
use settling::{drop_ended, spot_of};

// The clock is that of the last accepted post, 0 before the first.
#[derive(Clone, Copy, Debug, PartialEq, Eq)]
pub struct Board {
    pub clock: u32,
    pub places: [Place; Board::PLACES],
}

// The refusal number, 0 for an accepted post, and the board as it is afterwards. A struct and no Result: it is the paper's reply, and a refusal
// has a board too, the one that was.
#[derive(Clone, Copy, Debug, PartialEq, Eq)]
pub struct Posted {
    pub answer: u8,
    pub board: Board,
}

impl Board {
    pub const PLACES: usize = 64;

    // The clock's range.
    pub const FIRST_CLOCK: u32 = 1440;

    pub const LAST_CLOCK: u32 = 52591679;

    // The empty board.
    pub fn new() -> Board
        ensures { result ≡ empty_board }
    {
        Board {
            clock: 0,
            places: [no_place(); Board::PLACES],
        }
    }

    #[tactic(auto, unfolding(crate::specs::Boards::good_board))]
    pub fn is_good(self) -> bool
        ensures { result ≡ good_board self }
    {
        let timely = self.clock == 0 || in_range(self.clock);
        timely && good_places(self.clock, self.places) && are_distinct(self.places)
    }

    // Whether a call at the clock is refused for the board or the clock.
    #[tactic(auto, unfolding(crate::specs::Boards::refusal_at))]
    pub fn refusal_at(self, clock: u32) -> Result<(), Refusal>
        ensures { answer_of result ≡ refusal_at self clock }
    {
        if !self.is_good() {
            return Err(Refusal::BadBoard);
        }
        if !in_range(clock) {
            return Err(Refusal::ClockOutOfRange);
        }
        if clock < self.clock {
            return Err(Refusal::ClockGoesBack);
        }
        Ok(())
    }

    // The board with a message on it, or why it is refused.
    fn accept(self, clock: u32, message: Record) -> Result<Board, Refusal>
        ensures { posted_on self result ≡ post_of self clock message }
    {
        self.refusal_at(clock)?;
        let place = claim_of(clock, message)?;
        let mut places = drop_ended(clock, self.places);
        let at = spot_of(places, place)?;
        places[at] = place;
        Ok(Board { clock, places })
    }

    // A message given to the board at a clock.
    pub fn post(self, clock: u32, message: Record) -> Posted
        ensures { result ≡ post_of self clock message }
    {
        match self.accept(clock, message) {
            Ok(board) => Posted { answer: 0, board },
            Err(refusal) => Posted {
                answer: refusal.number(),
                board: self,
            },
        }
    }
}
