// A name of one or more words, kept with single spaces. It goes on as long as the next word belongs to it and there is room.
ghost use Rattle.std.specs.Prelude.{◌≡◌, ◌++◌, ◌+◌, ◌≤◌, length, take, drop};
ghost use Rattle.message.specs.Limits.{name_bytes};
ghost use Rattle.grammar.specs.Records.{name_of};
ghost use Rattle.reader_sections.specs.Names.{BelongsSays, GrownSays, NameSays};

use crate::parts::Part;
use crate::step::{Refused, Step};
use message::{NAME_BYTES, NO_NAME, Name};
use names::in_name;

// The bytes with the word put in from a place on.
fn put_word(bytes: [u8; NAME_BYTES], at: usize, w: &[u8]) -> [u8; NAME_BYTES]
    requires { at + length w.now ≤ name_bytes }
    ensures { result ≡ take at bytes ++ (w.now ++ drop (at + length w.now) bytes) }
{
    let mut out = bytes;
    out[at..at + w.len()].copy_from_slice(w);
    out
}

// Is the next word one of the name, and is there room for it behind the bytes that are used?
fn belongs(step: Step, used: usize, mountain: bool, limit: usize) -> bool
    requires { used ≤ name_bytes + 1 }
    ensures { BelongsSays mountain limit used step.entry result }
{
    let w = step.word();
    // The length first: a word that is too long is not looked at.
    used + w.len() <= limit && in_name(w, mountain)
}

// The name of that word alone.
fn first_name(w: &[u8]) -> Name
    requires { length w.now ≤ name_bytes }
    ensures { result ≡ name_of w.now }
{
    Name {
        bytes: put_word(NO_NAME.bytes, 0, w),
        count: w.len(),
    }
}

// The name with a space and the word after its text.
fn grown_name(name: Name, w: &[u8]) -> Name
    requires { name.count + 1 + length w.now ≤ name_bytes }
    ensures { GrownSays name w.now result }
{
    let count = name.count;
    let mut bytes = name.bytes;
    bytes[count] = b' ';
    Name {
        bytes: put_word(bytes, count + 1, w),
        count: count + 1 + w.len(),
    }
}

// A name of as many words as belong to it. The step is then before the word that does not.
pub(crate) fn read_name(
    step: Step,
    mountain: bool,
    limit: usize,
    part: Part,
) -> Result<(Name, Step), Refused>
    requires { limit ≤ name_bytes }
    ensures { NameSays mountain limit part step.entry result }
{
    if !belongs(step, 0, mountain, limit) {
        return Err(step.refused(part));
    }
    let mut name = first_name(step.word());
    let mut step = step.next();
    while belongs(step, name.count + 1, mountain, limit) {
        name = grown_name(name, step.word());
        step = step.next();
    }
    Ok((name, step))
}
