// Posts and lists by a script on standard input, and prints what each call answers: a program for tests. The script's grammar stands in
// docs/REPLAY.md. It reads and prints by the kit's `io`, and takes no memory from a heap: std's printing and `Vec` would stand on more functions of
// the C library than `read` and `write`.
#![tactic(auto)]

ghost use Rattle.std.specs.Prelude.{◌≡◌, length};

mod calls;
mod line;
mod script;

use board::Board;
use line::Line;
use script::{Malformed, Script};

// The longest script.
const MOST: usize = 1048576;

fn main() {
    let mut text = room();
    let n = io::read_full(0, &mut text);
    if run(&text[..n]).is_err() {
        io::write_all(1, b"?\n");
    }
}

// Room for the script and one byte more, so that a longer one is seen as such.
fn room() -> [u8; 1048577]
    ensures { 1048577 ≡ length result }
{
    [0; 1048577]
}

// Carries out the script command by command, up to the first that is not well-formed.
fn run(text: &[u8]) -> Result<(), Malformed> {
    if MOST < text.len() {
        return Err(Malformed);
    }
    let mut board = Board::new();
    let mut line = Line::new();
    for command in Script::new(text) {
        command?.carry_out(&mut board, &mut line);
    }
    Ok(())
}
