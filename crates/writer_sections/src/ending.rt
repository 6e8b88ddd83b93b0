// The ending: how the phenomenon moves, or that it does not, and its intensity; or its intensity and where it is forecast to be.
#![tactic(auto, using(pens::proofs::PenLaws::in_turn), unfolding(pens::specs::Pens::strokes, pens::specs::Pens::spaced, figures::specs::Codes::behind_one, motions::specs::Speeds::spell_speed, message::specs::Reports::ending_words))]

ghost use Rattle.std.specs.Prelude.{true, [], ◌∷◌, ◌≡◌};
ghost use Rattle.figures.specs.Codes.{spell_code};
ghost use Rattle.figures.specs.Tables.{numbered};
ghost use Rattle.message.specs.Locations.{good_extent};
ghost use Rattle.message.specs.Reports.{ending_words};
ghost use Rattle.motions.specs.Motions.{spell_compass, spell_intensity};
ghost use Rattle.motions.specs.Speeds.{unit_words, spell_speed};
ghost use Rattle.pens.specs.Pens.{Words};
ghost use Rattle.writer_sections.specs.Moves.{Moved};
ghost use Rattle.writer_sections.specs.Sections.{GoodEnding, moving_words, stationary_words, forecast_words};

use crate::NO_WORD;
use crate::pen::Pen;
use crate::report::Setting;
use message::{Ending, Extent};
use motions::Speed;

// The sixteen points of the compass are numbered 0 (N) to 15 (NNW), clockwise.
#[tactic(auto, using(crate::proofs::Tables::no_word), unfolding(motions::specs::Motions::compass_words, figures::specs::Codes::behind_one))]
fn compass_word(direction: u8) -> u64
    ensures { spell_code result ≡ spell_compass direction }
{
    match direction {
        0 => vocabulary::N,
        1 => vocabulary::NNE,
        2 => vocabulary::NE,
        3 => vocabulary::ENE,
        4 => vocabulary::E,
        5 => vocabulary::ESE,
        6 => vocabulary::SE,
        7 => vocabulary::SSE,
        8 => vocabulary::S,
        9 => vocabulary::SSW,
        10 => vocabulary::SW,
        11 => vocabulary::WSW,
        12 => vocabulary::W,
        13 => vocabulary::WNW,
        14 => vocabulary::NW,
        15 => vocabulary::NNW,
        16..=255 => NO_WORD,
    }
}

#[tactic(auto, using(crate::proofs::Tables::unnumbered), unfolding(motions::specs::Motions::intensity_words, figures::specs::Codes::behind_one))]
fn intensity_word(n: u8) -> u64
    ensures { spell_code result ≡ spell_intensity n }
{
    match n {
        1 => vocabulary::INTSF,
        2 => vocabulary::WKN,
        3 => vocabulary::NC,
        _ => NO_WORD,
    }
}

#[tactic(auto, using(crate::proofs::Tables::unnumbered), unfolding(motions::specs::Speeds::unit_words, figures::specs::Codes::behind_one))]
fn unit_word(n: u8) -> u64
    ensures { spell_code result ≡ numbered 1 unit_words n }
{
    match n {
        1 => vocabulary::KT,
        2 => vocabulary::KMH,
        _ => NO_WORD,
    }
}

impl Pen<'_> {
    fn intensity(&mut self, n: u8)
        ensures { Moved (Words (spell_intensity n ∷ [])) self.old self.new }
    {
        self.fixed(intensity_word(n));
    }

    // Two figures and the unit, in one word.
    fn speed(&mut self, s: Speed)
        ensures { Moved (Words (spell_speed s ∷ [])) self.old self.new }
    {
        self.byte(b' ');
        self.figures(u32::from(s.value), 2);
        self.code(unit_word(s.unit));
    }

    fn moving(&mut self, direction: u8, s: Speed, intensity: u8)
        ensures { Moved (Words (moving_words direction s intensity)) self.old self.new }
    {
        self.fixed(vocabulary::MOV);
        self.fixed(compass_word(direction));
        self.speed(s);
        self.intensity(intensity);
    }

    fn stationary(&mut self, intensity: u8)
        ensures { Moved (Words (stationary_words intensity)) self.old self.new }
    {
        self.fixed(vocabulary::STNR);
        self.intensity(intensity);
    }

    fn forecast(&mut self, setting: Setting, intensity: u8, forecast: Extent)
        requires { good_extent forecast ≡ true }
        ensures { Moved (Words (forecast_words setting.end setting.closing intensity forecast)) self.old self.new }
    {
        self.intensity(intensity);
        self.fixed(vocabulary::FCST);
        self.fixed(vocabulary::AT);
        self.time(setting.end);
        self.extent(setting.closing, forecast);
    }

    pub(crate) fn ending(&mut self, setting: Setting, ending: Ending, forecast: Extent)
        requires { GoodEnding ending forecast }
        ensures { Moved (Words (ending_words setting.end setting.closing ending forecast)) self.old self.new }
    {
        match ending {
            Ending::NoEnding => {}
            Ending::Moving(direction, s, intensity) => self.moving(direction, s, intensity),
            Ending::Stationary(intensity) => self.stationary(intensity),
            Ending::Forecast(intensity) => self.forecast(setting, intensity, forecast),
        }
    }
}
