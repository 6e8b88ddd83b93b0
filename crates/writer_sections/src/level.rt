// The level: one word, or a flight level behind `TOP`, `ABV` or `TOP ABV`.
#![tactic(auto, using(pens::proofs::PenLaws::in_turn), unfolding(pens::specs::Pens::strokes, pens::specs::Pens::spaced, figures::specs::Codes::behind_one, levels::specs::Levels::level_words, levels::specs::Levels::spell_level_word))]

ghost use Rattle.std.specs.Prelude.{[], ◌∷◌, ◌++◌};
ghost use Rattle.lists.specs.Text.{bytes};
ghost use Rattle.figures.specs.Codes.{spell_code};
ghost use Rattle.figures.specs.Figures.{in_figures};
ghost use Rattle.levels.specs.Levels.{level_words};
ghost use Rattle.pens.specs.Pens.{Words};
ghost use Rattle.writer_sections.specs.Moves.{Moved};
ghost use Rattle.writer_sections.specs.Sections.{flight_word, surface_word, feet_word, band_word};

use crate::pen::Pen;
use levels::{Level, feet_figures};

// The figures of a flight level.
const FLIGHT_FIGURES: u8 = 3;

// The figures of a height in metres.
const METRES_FIGURES: u8 = 4;

impl Pen<'_> {
    // A height in so many figures, and what stands before it in its word: `FL`, `SFC/FL` or `SFC/`.
    fn height(&mut self, front: u64, n: u32, figures: u8)
        ensures { Moved (Words ((spell_code front ++ in_figures figures n) ∷ [])) self.old self.new }
    {
        self.fixed(front);
        self.figures(n, figures);
    }

    // `TOP` or `ABV`, and a flight level behind it.
    fn flight_behind(&mut self, word: u64, n: u32)
        ensures { Moved (Words (spell_code word ∷ flight_word n ∷ [])) self.old self.new }
    {
        self.fixed(word);
        self.height(vocabulary::FL, n, FLIGHT_FIGURES);
    }

    fn top_above(&mut self, n: u32)
        ensures { Moved (Words (bytes "TOP" ∷ bytes "ABV" ∷ flight_word n ∷ [])) self.old self.new }
    {
        self.fixed(vocabulary::TOP);
        self.flight_behind(vocabulary::ABV, n);
    }

    // Two flight levels with a `/` between, `FL` before the first alone.
    fn band(&mut self, low: u32, high: u32)
        ensures { Moved (Words (band_word low high ∷ [])) self.old self.new }
    {
        self.height(vocabulary::FL, low, FLIGHT_FIGURES);
        self.byte(b'/');
        self.figures(high, FLIGHT_FIGURES);
    }

    fn metres(&mut self, n: u32)
        ensures { Moved (Words ((surface_word n 4 ++ bytes "M") ∷ [])) self.old self.new }
    {
        self.height(vocabulary::SURFACE, n, METRES_FIGURES);
        self.byte(b'M');
    }

    fn feet(&mut self, n: u32)
        ensures { Moved (Words (feet_word n ∷ [])) self.old self.new }
    {
        self.height(vocabulary::SURFACE, n, feet_figures(n));
        self.code(vocabulary::FT);
    }

    pub(crate) fn level(&mut self, level: Level)
        ensures { Moved (Words (level_words level)) self.old self.new }
    {
        match level {
            Level::NoLevel => {}
            Level::Flight(n) => self.height(vocabulary::FL, n, FLIGHT_FIGURES),
            Level::SurfaceFlight(n) => self.height(vocabulary::SURFACE_FLIGHT, n, FLIGHT_FIGURES),
            Level::SurfaceMetres(n) => self.metres(n),
            Level::SurfaceFeet(n) => self.feet(n),
            Level::Band(low, high) => self.band(low, high),
            Level::TopFlight(n) => self.flight_behind(vocabulary::TOP, n),
            Level::AboveFlight(n) => self.flight_behind(vocabulary::ABV, n),
            Level::TopAboveFlight(n) => self.top_above(n),
        }
    }
}
