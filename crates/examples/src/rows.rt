// A row of the table: name, number, place, length and text, parted by single spaces. A line that begins with `#` and one with fewer parts are no rows.
use crate::texts::{ROOM, unescape};
use grammar::Reply;
use message::Record;
use reader::read;
use writer::write;

#[derive(Clone, Copy)]
pub(crate) struct Row<'a> {
    name: &'a [u8],
    // The number, the place and the length that are expected.
    reply: [&'a [u8]; 3],
    text: &'a [u8],
    // It stands behind the text and a `|`, or it is the text itself.
    canonical: &'a [u8],
}

impl<'a> Row<'a> {
    // The text is all that is left behind four spaces, and none where there are three.
    pub(crate) fn parse(line: &'a [u8]) -> Option<Row<'a>> {
        if line.starts_with(b"#") {
            return None;
        }
        let mut parts = line.splitn(5, |byte| *byte == b' ');
        let name = parts.next()?;
        let reply = [parts.next()?, parts.next()?, parts.next()?];
        let texts = parts.next().unwrap_or(&[]);
        let mut texts = texts.splitn(2, |byte| *byte == b'|');
        let text = texts.next()?;
        let canonical = texts.next().unwrap_or(text);
        Some(Row {
            name,
            reply,
            text,
            canonical,
        })
    }

    // Reads the text and prints its name, the reply, and what is wrong where something is. Is nothing wrong?
    pub(crate) fn judge(&self) -> bool {
        let mut text = [0; ROOM];
        let n = unescape(self.text, &mut text);
        let reply = read(&text[..n]);
        let [number, place, length] = numbers(&reply);
        io::write_all(1, self.name);
        io::write_all(1, b": ");
        io::print_decimal(1, number);
        io::write_all(1, b" ");
        io::print_decimal(1, place);
        io::write_all(1, b" ");
        io::print_decimal(1, length);
        if !self.expects(&reply) {
            self.tell_expected();
            return false;
        }
        if reply.number == 0 && !self.is_written(reply.message) {
            return false;
        }
        io::write_all(1, b" ok\n");
        true
    }

    fn expects(&self, reply: &Reply) -> bool {
        numbers(reply)
            .iter()
            .zip(self.reply)
            .all(|(number, text)| is_number(*number, text))
    }

    fn tell_expected(&self) {
        let [number, place, length] = self.reply;
        io::write_all(1, b" WRONG, expected ");
        io::write_all(1, number);
        io::write_all(1, b" ");
        io::write_all(1, place);
        io::write_all(1, b" ");
        io::write_all(1, length);
        io::write_all(1, b"\n");
    }

    // Is the text written of this record the expected one? Where it is not, it is printed.
    fn is_written(&self, message: Record) -> bool {
        let mut expected = [0; ROOM];
        let n = unescape(self.canonical, &mut expected);
        let mut text = [0; 2048];
        let written = write(message, &mut text);
        let text = &text[..written.count];
        if text == &expected[..n] {
            return true;
        }
        io::write_all(1, b" WRONG, canonical text ");
        io::write_all(1, text);
        io::write_all(1, b"\n");
        false
    }
}

fn numbers(reply: &Reply) -> [u64; 3] {
    [
        u64::from(reply.number),
        reply.place as u64,
        reply.length as u64,
    ]
}

// Are these the number's figures, with no zero in front?
fn is_number(number: u64, text: &[u8]) -> bool {
    let mut figures = [0; 20];
    let k = io::decimal(number, &mut figures);
    &figures[..k] == text
}
