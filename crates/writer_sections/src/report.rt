// A report: phenomenon, observation, location, level, then the ending.
#![tactic(auto, using(pens::proofs::PenLaws::in_turn), unfolding(pens::specs::Pens::strokes, pens::specs::Pens::spaced, figures::specs::Codes::behind_one, message::specs::Reports::report_words))]

ghost use Rattle.message.specs.Reports.{report_words};
ghost use Rattle.pens.specs.Pens.{Words};
ghost use Rattle.writer_sections.specs.Moves.{Moved};
ghost use Rattle.writer_sections.specs.Sections.{GoodReport};

use crate::pen::Pen;
use groups::Time;
use message::Report;

// What a report's words take from the rest of the record: the end of VALID, which is the time of a forecast, and the area's closing word, which
// tells what the entire area is called.
#[derive(Clone, Copy)]
pub(crate) struct Setting {
    pub(crate) end: Time,
    pub(crate) closing: u8,
}

impl Pen<'_> {
    pub(crate) fn report(&mut self, setting: Setting, r: Report)
        requires { GoodReport r }
        ensures { Moved (Words (report_words setting.end setting.closing r)) self.old self.new }
    {
        self.phenomenon(r.phenomenon, r.volcano);
        self.observation(r.observation);
        self.extent(setting.closing, r.extent);
        self.level(r.level);
        self.ending(setting, r.ending, r.forecast);
    }
}
