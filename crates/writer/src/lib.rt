// The writer: a record to its canonical text.
#![tactic(auto)]

ghost use Rattle.std.specs.Prelude.{◌≡◌};
ghost use Rattle.grammar.specs.Writes.{write_of};
ghost use Rattle.pens.specs.Outcomes.{wrote};

use message::Record;
use pens::{Written, refused};
use writer_sections::put_text;

// A record that is not good.
const BAD_RECORD: u8 = 13;

// A buffer shorter than the text.
const SHORT_BUFFER: u8 = 14;

// A text of more bytes than a text may have.
const LONG_TEXT: u8 = 24;

// The most bytes that a text may have. The page has one byte more, so that a longer text is seen.
const MOST_BYTES: usize = 2048;

const PAGE_BYTES: usize = MOST_BYTES + 1;

// Writes the canonical text at the front of the buffer. No byte is put on the page for a record that is not good.
pub fn write(message: Record, out: &mut [u8]) -> Written
    ensures { wrote result out.new ≡ write_of message out.old }
{
    let mut page = [0u8; PAGE_BYTES];
    let count = put_text(&mut page, message);
    let bad = count == 0;
    if bad {
        return refused(BAD_RECORD);
    }
    if MOST_BYTES < count {
        return refused(LONG_TEXT);
    }
    if out.len() < count {
        return refused(SHORT_BUFFER);
    }
    out[..count].copy_from_slice(&page[..count]);
    Written { number: 0, count }
}
