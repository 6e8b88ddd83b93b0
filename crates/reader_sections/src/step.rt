// Where the reading stands, and a refusal.
ghost use Rattle.reader_sections.specs.Standing.{WordAt};

use crate::parts::Part;

// The text before the first `=`, and in it the next word, from its place up to its end; the `=` itself is empty there.
#[derive(Clone, Copy)]
pub(crate) struct Step<'a> {
    pub text: &'a [u8],
    pub place: usize,
    pub end: usize,
    ghost stands: { WordAt text.now place place end },
}

// What is refused: the part that the word is judged as, its place and its length.
#[derive(Clone, Copy)]
pub(crate) struct Refused {
    pub part: Part,
    pub place: usize,
    pub length: usize,
}
