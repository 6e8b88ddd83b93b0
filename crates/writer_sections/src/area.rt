// The area: four letters, its name, and the closing word `FIR`, `FIR/UIR` or `CTA`.
#![tactic(auto, using(pens::proofs::PenLaws::in_turn), unfolding(pens::specs::Pens::strokes, pens::specs::Pens::spaced, figures::specs::Codes::behind_one, message::specs::Words::area_words))]

ghost use Rattle.std.specs.Prelude.{◌≡◌, ◌≤◌};
ghost use Rattle.figures.specs.Codes.{spell_code};
ghost use Rattle.figures.specs.Tables.{numbered};
ghost use Rattle.names.specs.Names.{closing_words};
ghost use Rattle.message.specs.Limits.{name_bytes};
ghost use Rattle.message.specs.Names.{name_words};
ghost use Rattle.message.specs.Words.{area_words};
ghost use Rattle.pens.specs.Pens.{Words, Line};
ghost use Rattle.writer_sections.specs.Moves.{Moved};

use crate::NO_WORD;
use crate::pen::Pen;
use message::{Area, Name};
use names::CLOSED_BY_CTA;

// The word with which an area closes.
#[tactic(auto, using(crate::proofs::Tables::unnumbered), unfolding(names::specs::Names::closing_words, figures::specs::Codes::behind_one))]
fn closing_word(n: u8) -> u64
    ensures { spell_code result ≡ numbered 1 closing_words n }
{
    match n {
        1 => vocabulary::FIR,
        2 => vocabulary::FIR_UIR,
        CLOSED_BY_CTA => vocabulary::CTA,
        _ => NO_WORD,
    }
}

impl Pen<'_> {
    // The words of a name. The record keeps them as one text with single spaces, so that a space before it is all that is missing.
    pub(crate) fn name(&mut self, n: Name)
        requires { n.count ≤ name_bytes }
        ensures { Moved (Words (name_words n)) self.old self.new }
    {
        self.word(&n.bytes[..n.count]);
    }

    pub(crate) fn area(&mut self, a: Area)
        requires { a.name.count ≤ name_bytes }
        ensures { Moved (Line (area_words a)) self.old self.new }
    {
        self.letters(a.indicator, 4);
        self.name(a.name);
        self.fixed(closing_word(a.closing));
    }
}
