// A line that is put together and printed by one call of `write`. It has room for the longest, of 2,000 bytes in hexadecimal, and stands in a buffer
// of its own: a `String` would stand on the C library's heap. One line serves for all that are printed, one after another: to clear and move the
// whole buffer for each would cost more than the reading of a refused bulletin.
ghost use Rattle.std.specs.Prelude.{◌≤◌, length};

use pens::{put, put_all};

#[derive(Drop)]
pub(crate) struct Line {
    bytes: [u8; 4096],
    end: usize,
    ghost within: { end ≤ length bytes },
}

impl Line {
    pub(crate) fn new() -> Line {
        Line {
            bytes: [0; 4096],
            end: 0,
        }
    }

    // A new line, of a letter so far.
    pub(crate) fn begin(&mut self, letter: u8) {
        self.end = 0;
        self.put(letter);
    }

    fn put(&mut self, x: u8) {
        self.end = put(&mut self.bytes, self.end, x);
    }

    // A space and a number.
    pub(crate) fn number(&mut self, number: u64) {
        let mut figures = [0; 20];
        let k = io::decimal(number, &mut figures);
        self.put(b' ');
        self.end = put_all(&mut self.bytes, self.end, &figures[..k]);
    }

    // A space and bytes in hexadecimal, two figures each.
    pub(crate) fn hex(&mut self, bytes: &[u8]) {
        self.put(b' ');
        for x in bytes {
            self.put(figure(x / 16));
            self.put(figure(x % 16));
        }
    }

    pub(crate) fn print(&mut self) {
        self.put(b'\n');
        // Lent whole first: `within` speaks of its length, and of the array a part would need a bound on 4,096.
        let bytes: &[u8] = &self.bytes;
        io::write_all(1, &bytes[..self.end]);
    }
}

// A hexadecimal figure, in lower case.
fn figure(n: u8) -> u8 {
    b"0123456789abcdef"[usize::from(n % 16)]
}
