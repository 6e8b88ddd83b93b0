// What follows the area: a test, a cancellation or a report.
#![tactic(auto, using(pens::proofs::PenLaws::in_turn), unfolding(pens::specs::Pens::strokes, pens::specs::Pens::spaced, figures::specs::Codes::behind_one, message::specs::Words::test_texts, message::specs::Words::form_words))]

ghost use Rattle.std.specs.Prelude.{true, [], ◌∷◌, ◌≡◌, ◌≤◌};
ghost use Rattle.lists.specs.Text.{bytes};
ghost use Rattle.message.specs.Records.{good};
ghost use Rattle.message.specs.Words.{form_words};
ghost use Rattle.pens.specs.Pens.{Words};
ghost use Rattle.writer_sections.specs.Moves.{Moved};
ghost use Rattle.writer_sections.specs.Sections.{test_words, cancellation_words};

use crate::pen::Pen;
use crate::report::Setting;
use groups::{Group, Period, Time};
use headings::Sequence;
use message::{Form, Record};

impl Pen<'_> {
    // `PLEASE DISREGARD`, with which both longer tests end.
    fn please_disregard(&mut self)
        ensures { Moved (Words (bytes "PLEASE" ∷ bytes "DISREGARD" ∷ [])) self.old self.new }
    {
        self.fixed(vocabulary::PLEASE);
        self.word(&vocabulary::DISREGARD);
    }

    // `TEST SIGMET PLEASE DISREGARD`
    fn test_sigmet(&mut self)
        ensures { Moved (Words (test_words 2)) self.old self.new }
    {
        self.fixed(vocabulary::TEST);
        self.fixed(vocabulary::SIGMET);
        self.please_disregard();
    }

    // `TEST. THIS IS A TEST SIGMET, PLEASE DISREGARD`
    fn this_is_a_test(&mut self)
        ensures { Moved (Words (test_words 3)) self.old self.new }
    {
        self.fixed(vocabulary::TEST_STOP);
        self.fixed(vocabulary::THIS);
        self.fixed(vocabulary::IS);
        self.fixed(vocabulary::A);
        self.fixed(vocabulary::TEST);
        self.fixed(vocabulary::SIGMET_COMMA);
        self.please_disregard();
    }

    fn test(&mut self, n: u8)
        requires { (1 ≤ n) × (n ≤ 3) }
        ensures { Moved (Words (test_words n)) self.old self.new }
    {
        match n {
            1 => self.fixed(vocabulary::TEST),
            2 => self.test_sigmet(),
            _ => self.this_is_a_test(),
        }
    }

    fn cancellation(&mut self, s: Sequence, period: Period)
        ensures { Moved (Words (cancellation_words s period.from period.to)) self.old self.new }
    {
        self.fixed(vocabulary::CNL);
        self.fixed(vocabulary::SIGMET);
        self.sequence(s);
        self.period(period);
    }

    // A cancellation's second group, and a forecast's time, are those of the end of VALID.
    pub(crate) fn form(&mut self, r: Record)
        requires { good r ≡ true }
        ensures { Moved (Words (form_words r r.form)) self.old self.new }
    {
        let to = r.line.valid.to;
        let end = Time {
            hour: to.hour,
            minute: to.minute,
        };
        let closing = r.area.closing;
        match r.form {
            Form::NoForm => {}
            Form::Test(n) => self.test(n),
            Form::Cancellation(s, from) => self.cancellation(s, Period { from, to }),
            Form::Reported => self.report(Setting { end, closing }, r.report),
        }
    }
}
