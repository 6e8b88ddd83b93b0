// A pen on a lent page: it puts bytes where it stands, and then stands behind them. At the end of the page it stops: what does not fit is not put.
ghost use Rattle.std.specs.Prelude.{[], ◌∷◌};
ghost use Rattle.lists.specs.Base.{places};
ghost use Rattle.figures.specs.Codes.{spell_code};
ghost use Rattle.figures.specs.Figures.{in_figures};
ghost use Rattle.pens.specs.Pens.{Puts, Words};
ghost use Rattle.writer_sections.specs.Moves.{Moved};

use pens::{put, put_all, put_big_endian, put_code, put_figures, put_fixed, put_word};

#[derive(Drop)]
pub(crate) struct Pen<'a> {
    pub(crate) page: &'a mut [u8],
    pub(crate) at: usize,
}

impl Pen<'_> {
    // One byte.
    pub(crate) fn byte(&mut self, x: u8)
        ensures { Moved (Puts (x ∷ [])) self.old self.new }
    {
        self.at = put(self.page, self.at, x);
    }

    // All bytes of a text.
    pub(crate) fn bytes(&mut self, text: &[u8])
        ensures { Moved (Puts text.now) self.old self.new }
    {
        self.at = put_all(self.page, self.at, text);
    }

    // A space, and a word behind it.
    pub(crate) fn word(&mut self, word: &[u8])
        ensures { Moved (Words (word.now ∷ [])) self.old self.new }
    {
        self.at = put_word(self.page, self.at, word);
    }

    // The last k decimal figures of n.
    pub(crate) fn figures(&mut self, n: u32, k: u8)
        ensures { Moved (Puts (in_figures k n)) self.old self.new }
    {
        self.at = put_figures(self.page, self.at, n, k);
    }

    // Letters that are kept as one number: the last k bytes of it.
    pub(crate) fn letters(&mut self, n: u32, k: u8)
        ensures { Moved (Puts (places 256 k n)) self.old self.new }
    {
        self.at = put_big_endian(self.page, self.at, n, k);
    }

    // The word of a code, going on in the word that was begun.
    pub(crate) fn code(&mut self, code: u64)
        ensures { Moved (Puts (spell_code code)) self.old self.new }
    {
        self.at = put_code(self.page, self.at, code);
    }

    // A space, and the word of a code behind it.
    pub(crate) fn fixed(&mut self, code: u64)
        ensures { Moved (Words (spell_code code ∷ [])) self.old self.new }
    {
        self.at = put_fixed(self.page, self.at, code);
    }
}
