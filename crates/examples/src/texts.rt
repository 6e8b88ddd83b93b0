// The bytes that a text of the table stands for: each for itself but for `\r`, CR; `\n`, LF; `\s`, 128 spaces; and `\x` with two hexadecimal digits,
// any byte.
ghost use Rattle.std.specs.Prelude.{◌<◌};
ghost use Rattle.io.specs.Counts.{IsPrefixLen};

use pens::{put, put_all};

// More than a bulletin has, so that a longer one is seen as such.
pub(crate) const ROOM: usize = 2304;

// Puts them at the front of the buffer, as many as it has room for, and answers how many.
pub(crate) fn unescape(text: &[u8], out: &mut [u8]) -> usize
    ensures { IsPrefixLen result out.new }
{
    let mut at = 0;
    let mut rest = text;
    // What is left of a text that is too long costs nothing.
    while at < out.len() {
        rest = match rest {
            [] => return at,
            [b'\\', b's', rest @ ..] => {
                at = put_all(out, at, &[b' '; 128]);
                rest
            }
            [b'\\', b'x', high, low, rest @ ..] => {
                at = put(out, at, digit(*high) * 16 + digit(*low));
                rest
            }
            [b'\\', mark, rest @ ..] => {
                at = put(out, at, control(*mark));
                rest
            }
            [byte, rest @ ..] => {
                at = put(out, at, *byte);
                rest
            }
        };
    }
    at
}

fn control(mark: u8) -> u8 {
    match mark {
        b'r' => b'\r',
        b'n' => b'\n',
        _ => mark,
    }
}

// A hexadecimal digit in lower case; any other byte counts 0.
fn digit(x: u8) -> u8
    ensures { result < 16 }
{
    match x {
        b'0'..=b'9' => x - b'0',
        b'a'..=b'f' => x - b'a' + 10,
        _ => 0,
    }
}
