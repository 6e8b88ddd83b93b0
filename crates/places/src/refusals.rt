// Why a board refuses a message, or a listing.
ghost use Rattle.std.specs.Prelude.{◌≡◌};
ghost use Rattle.places.specs.Refusals.{number_of};

#[derive(Clone, Copy, Debug, PartialEq, Eq)]
pub enum Refusal {
    BadRecord,
    Test,
    ClockOutOfRange,
    ClockGoesBack,
    NoStart,
    NoEnd,
    Ended,
    Held,
    Marked,
    Full,
    BadBoard,
}

impl Refusal {
    // The paper's number of the refusal.
    pub fn number(self) -> u8
        ensures { result ≡ number_of self }
    {
        match self {
            Refusal::BadRecord => 13,
            Refusal::Test => 15,
            Refusal::ClockOutOfRange => 16,
            Refusal::ClockGoesBack => 17,
            Refusal::NoStart => 18,
            Refusal::NoEnd => 19,
            Refusal::Ended => 20,
            Refusal::Held => 21,
            Refusal::Marked => 22,
            Refusal::Full => 23,
            Refusal::BadBoard => 36,
        }
    }
}
