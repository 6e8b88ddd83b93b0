// The parts of a message, in the order of the paper: a word that does not fit is refused by the number of the part that it is judged as.
ghost use Rattle.std.specs.Prelude.{◌≡◌};
ghost use Rattle.reader_sections.specs.Parts.{part_number};

#[derive(Clone, Copy)]
pub(crate) enum Part {
    Heading,
    FirstLine,
    Area,
    // A test, a cancellation or a phenomenon.
    Form,
    Observation,
    Location,
    Level,
    Ending,
    // A word where the `=` would be accepted.
    End,
}

impl Part {
    pub(crate) fn number(self) -> u8
        ensures { result ≡ part_number self }
    {
        match self {
            Part::Heading => 4,
            Part::FirstLine => 5,
            Part::Area => 6,
            Part::Form => 7,
            Part::Observation => 8,
            Part::Location => 9,
            Part::Level => 10,
            Part::Ending => 11,
            Part::End => 12,
        }
    }
}
