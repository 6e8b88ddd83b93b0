// The heading: designator, centre, the group of day and time at which it was sent, and perhaps a correction.
#![tactic(auto, using(pens::proofs::PenLaws::in_turn), unfolding(pens::specs::Pens::strokes, pens::specs::Pens::spaced, figures::specs::Codes::behind_one, headings::specs::Headings::spell_designator, groups::specs::Groups::spell_group, message::specs::Words::heading_words))]

ghost use Rattle.std.specs.Prelude.{[], ◌∷◌, ◌≡◌};
ghost use Rattle.figures.specs.Codes.{spell_code};
ghost use Rattle.figures.specs.Letters.{in_letters};
ghost use Rattle.figures.specs.Tables.{numbered};
ghost use Rattle.groups.specs.Groups.{spell_group};
ghost use Rattle.headings.specs.Headings.{type_words, spell_designator};
ghost use Rattle.message.specs.Words.{correction_words, heading_words};
ghost use Rattle.pens.specs.Pens.{Puts, Words, Line};
ghost use Rattle.writer_sections.specs.Moves.{Moved};

use crate::NO_WORD;
use crate::pen::Pen;
use groups::Group;
use headings::{Designator, KIND_WS, KIND_WV};
use message::Heading;

// The type of bulletin by its kind.
#[tactic(auto, using(crate::proofs::Tables::unnumbered), unfolding(headings::specs::Headings::type_words, figures::specs::Codes::behind_one))]
fn type_word(kind: u8) -> u64
    ensures { spell_code result ≡ numbered 2 type_words kind }
{
    match kind {
        KIND_WS => vocabulary::WS,
        KIND_WV => vocabulary::WV,
        _ => NO_WORD,
    }
}

impl Pen<'_> {
    // The type, two letters and two figures, in one word: the first of the text, with no space before it.
    fn designator(&mut self, d: Designator)
        ensures { Moved (Puts (spell_designator d)) self.old self.new }
    {
        self.code(type_word(d.kind));
        self.letters(d.region, 2);
        self.figures(u32::from(d.number), 2);
    }

    // A word of four letters, which a record keeps as one number.
    pub(crate) fn four(&mut self, letters: u32)
        ensures { Moved (Words (in_letters 4 letters ∷ [])) self.old self.new }
    {
        self.byte(b' ');
        self.letters(letters, 4);
    }

    // Day, hour and minute in six figures, without a space before them.
    pub(crate) fn group(&mut self, g: Group)
        ensures { Moved (Puts (spell_group g)) self.old self.new }
    {
        self.figures(u32::from(g.day), 2);
        self.figures(u32::from(g.hour), 2);
        self.figures(u32::from(g.minute), 2);
    }

    // The same as a word of its own.
    fn sent(&mut self, g: Group)
        ensures { Moved (Words (spell_group g ∷ [])) self.old self.new }
    {
        self.byte(b' ');
        self.group(g);
    }

    // `CCA` to `CCX` by the last letter; letter 0 is no correction.
    fn correction(&mut self, letter: u8)
        ensures { Moved (Words (correction_words letter)) self.old self.new }
    {
        if letter != 0 {
            self.word(b"CC");
            self.byte(letter);
        }
    }

    pub(crate) fn heading(&mut self, h: Heading)
        ensures { Moved (Line (heading_words h)) self.old self.new }
    {
        self.designator(h.designator);
        self.four(h.centre);
        self.sent(h.sent);
        self.correction(h.correction);
    }
}
