// The observation: `OBS` or `FCST`, and perhaps `AT` and a time of day.
#![tactic(auto, using(pens::proofs::PenLaws::in_turn), unfolding(pens::specs::Pens::strokes, pens::specs::Pens::spaced, figures::specs::Codes::behind_one, groups::specs::Groups::spell_time, message::specs::Reports::observation_words))]

ghost use Rattle.std.specs.Prelude.{[], ◌∷◌, ◌≡◌};
ghost use Rattle.figures.specs.Codes.{spell_code};
ghost use Rattle.groups.specs.Groups.{spell_time};
ghost use Rattle.message.specs.Reports.{observation_words};
ghost use Rattle.pens.specs.Pens.{Words};
ghost use Rattle.writer_sections.specs.Moves.{Moved};
ghost use Rattle.writer_sections.specs.Sections.{observed_word};

use crate::pen::Pen;
use groups::Time;
use message::{OBSERVED, Observation};

#[tactic(auto, unfolding(figures::specs::Codes::behind_one))]
fn observed_word(n: u8) -> u64
    ensures { spell_code result ≡ observed_word n }
{
    match n {
        OBSERVED => vocabulary::OBS,
        _ => vocabulary::FCST,
    }
}

impl Pen<'_> {
    // Hour and minute in four figures, and a `Z`. A forecast has a time too.
    pub(crate) fn time(&mut self, t: Time)
        ensures { Moved (Words (spell_time t ∷ [])) self.old self.new }
    {
        self.byte(b' ');
        self.figures(u32::from(t.hour), 2);
        self.figures(u32::from(t.minute), 2);
        self.byte(b'Z');
    }

    pub(crate) fn observation(&mut self, o: Observation)
        ensures { Moved (Words (observation_words o)) self.old self.new }
    {
        self.fixed(observed_word(o.word));
        if o.timed {
            self.fixed(vocabulary::AT);
            self.time(o.time);
        }
    }
}
