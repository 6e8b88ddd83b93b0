// The sections of the writer: a good record is put onto a page as its canonical text. Each section of the text has a file here, and is a method of
// the pen that puts it. At its top the file names the definitions of its words, and the check finds that the calls put these in turn.
#![tactic(auto)]

ghost use Rattle.std.specs.Prelude.{true, ◌≡◌};
ghost use Rattle.message.specs.Records.{good};
ghost use Rattle.message.specs.Words.{body_words, new_line, text_of};
ghost use Rattle.pens.specs.Pens.{Puts, Line};
ghost use Rattle.writer_sections.specs.Moves.{Moved};
ghost use Rattle.writer_sections.specs.Sections.{good_text};

mod area;
mod ending;
mod first_line;
mod form;
mod heading;
mod level;
mod location;
mod observation;
mod pen;
mod phenomenon;
mod report;

use message::{Record, is_good};
use pen::Pen;

// The code of no word: it stands for a number that has no word, and nothing is put for it.
pub(crate) const NO_WORD: u64 = 0;

impl Pen<'_> {
    // CR LF.
    fn line_end(&mut self)
        ensures { Moved (Puts new_line) self.old self.new }
    {
        self.bytes(b"\r\n");
    }

    // The body: the area, and then a test, a cancellation or a report.
    #[tactic(auto, using(pens::proofs::PenLaws::in_turn), unfolding(pens::specs::Pens::strokes, pens::specs::Pens::spaced, figures::specs::Codes::behind_one, message::specs::Words::area_words, message::specs::Words::body_words))]
    fn body(&mut self, r: Record)
        requires { good r ≡ true }
        ensures { Moved (Line (body_words r)) self.old self.new }
    {
        self.area(r.area);
        self.form(r);
    }

    // The canonical text.
    #[tactic(auto, using(pens::proofs::PenLaws::in_turn), unfolding(pens::specs::Pens::strokes, pens::specs::Pens::spaced, figures::specs::Codes::behind_one, message::specs::Words::text_of))]
    fn text(&mut self, r: Record)
        requires { good r ≡ true }
        ensures { Moved (Puts (text_of r)) self.old self.new }
    {
        self.heading(r.heading);
        self.line_end();
        self.first_line(r.line);
        self.line_end();
        self.body(r);
        self.byte(b'=');
    }
}

// The canonical text of a good record from the front of the page on, as far as the page goes, and nothing of any other record. Answers with the
// place behind it: 0 only where nothing was put. (No Option: its row in `Functions` and `Puts` have the place on every record.)
pub fn put_text(out: &mut [u8], r: Record) -> usize
    ensures { Puts (good_text r) 0 out.old result out.new }
{
    if !is_good(r) {
        return 0;
    }
    let mut pen = Pen { page: out, at: 0 };
    pen.text(r);
    pen.at
}
