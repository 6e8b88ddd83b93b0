// The first line, which follows the heading: unit, `SIGMET` and its sequence, `VALID` and its period, and the office. A cancellation has a
// sequence and a period too.
#![tactic(auto, using(pens::proofs::PenLaws::in_turn), unfolding(pens::specs::Pens::strokes, pens::specs::Pens::spaced, figures::specs::Codes::behind_one, groups::specs::Groups::spell_period, headings::specs::Sequences::spell_sequence, message::specs::Words::line_words))]

ghost use Rattle.std.specs.Prelude.{[], ◌∷◌};
ghost use Rattle.groups.specs.Groups.{spell_period};
ghost use Rattle.headings.specs.Headings.{spell_office};
ghost use Rattle.headings.specs.Sequences.{letter_of, spell_sequence};
ghost use Rattle.message.specs.Words.{line_words};
ghost use Rattle.pens.specs.Pens.{Puts, Words, Line};
ghost use Rattle.writer_sections.specs.Moves.{Moved};

use crate::pen::Pen;
use groups::Period;
use headings::Sequence;
use message::FirstLine;

impl Pen<'_> {
    // The letter of a sequence; letter 0 is none.
    fn letter(&mut self, letter: u8)
        ensures { Moved (Puts (letter_of letter)) self.old self.new }
    {
        if letter != 0 {
            self.byte(letter);
        }
    }

    // Perhaps a letter, and the number in as many figures as were written.
    pub(crate) fn sequence(&mut self, s: Sequence)
        ensures { Moved (Words (spell_sequence s ∷ [])) self.old self.new }
    {
        self.byte(b' ');
        self.letter(s.letter);
        self.figures(u32::from(s.number), s.digits);
    }

    // Two groups with a `/` between.
    pub(crate) fn period(&mut self, p: Period)
        ensures { Moved (Words (spell_period p ∷ [])) self.old self.new }
    {
        self.byte(b' ');
        self.group(p.from);
        self.byte(b'/');
        self.group(p.to);
    }

    // Four letters and a hyphen.
    fn office(&mut self, letters: u32)
        ensures { Moved (Words (spell_office letters ∷ [])) self.old self.new }
    {
        self.four(letters);
        self.byte(b'-');
    }

    pub(crate) fn first_line(&mut self, l: FirstLine)
        ensures { Moved (Line (line_words l)) self.old self.new }
    {
        self.letters(l.unit, 4);
        self.fixed(vocabulary::SIGMET);
        self.sequence(l.sequence);
        self.fixed(vocabulary::VALID);
        self.period(l.valid);
        self.office(l.office);
    }
}
