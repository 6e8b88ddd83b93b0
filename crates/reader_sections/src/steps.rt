// One word at a step: required, perhaps there, or refused. What most words go through is inlined: a call hands its step and its answer over in
// memory.
ghost use Rattle.std.specs.Prelude.{◌≡◌, ◌≤◌, ◌<◌, length};
ghost use Rattle.figures.specs.Codes.{code_of};
ghost use Rattle.reader_sections.specs.Steps.{word_on, Before, Next, Refuses, Required, Fixed, Long, Perhaps, Ended};

use crate::parts::Part;
use crate::step::{Refused, Step};
use figures::code;
use vocabulary::same_word;
use words::{length_at, word_at};

impl<'a> Step<'a> {
    // The step before the next word from a place on.
    #[inline(always)]
    pub(crate) fn at(text: &'a [u8], place: usize) -> Step<'a>
        requires { place ≤ length text.now }
        ensures { Before text.now place result }
    {
        let next = word_at(text, place);
        Step {
            text,
            place: next.start,
            end: next.end,
        }
    }

    // The step past the word.
    #[inline(always)]
    pub(crate) fn next(self) -> Step<'a>
        ensures { Next self.entry result }
    {
        Step::at(self.text, self.end)
    }

    // What the text has of the word: nothing of the `=`.
    #[inline(always)]
    pub(crate) fn word(self) -> &'a [u8]
        ensures { result.now ≡ word_on self.entry }
    {
        &self.text[self.place..self.end]
    }

    #[inline(always)]
    pub(crate) fn code(self) -> u64
        ensures { result ≡ code_of (word_on self.entry) }
    {
        code(self.word())
    }

    // The refusal of the word, as that part.
    pub(crate) fn refused(self, part: Part) -> Refused
        ensures { Refuses part self.entry result }
    {
        Refused {
            part,
            place: self.place,
            length: length_at(self.text, self.place),
        }
    }

    // A word that has to have a value, which was read of it.
    #[inline(always)]
    pub(crate) fn required<T>(self, part: Part, value: Option<T>) -> Result<(T, Step<'a>), Refused>
        ensures { Required part self.entry value result }
    {
        match value {
            Some(value) => Ok((value, self.next())),
            None => Err(self.refused(part)),
        }
    }

    // A fixed word that has to come.
    #[inline(always)]
    pub(crate) fn fixed(self, part: Part, wanted: u64) -> Result<Step<'a>, Refused>
        ensures { Fixed part wanted self.entry result }
    {
        if self.code() == wanted {
            Ok(self.next())
        } else {
            Err(self.refused(part))
        }
    }

    // A fixed word of more than seven bytes, which has no code.
    pub(crate) fn long(self, part: Part, wanted: &[u8]) -> Result<Step<'a>, Refused>
        ensures { Long part wanted.now self.entry result }
    {
        if same_word(self.word(), wanted) {
            Ok(self.next())
        } else {
            Err(self.refused(part))
        }
    }

    // A fixed word that may be left out.
    #[inline(always)]
    pub(crate) fn perhaps(self, wanted: u64) -> Option<Step<'a>>
        ensures { Perhaps wanted self.entry result }
    {
        if self.code() == wanted {
            Some(self.next())
        } else {
            None
        }
    }

    // After the last part only the `=` may come.
    #[inline(always)]
    pub(crate) fn ended(self) -> Result<(), Refused>
        ensures { Ended self.entry result }
    {
        if self.place == self.end {
            Ok(())
        } else {
            Err(self.refused(Part::End))
        }
    }
}
