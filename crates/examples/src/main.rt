// Runs the example texts through the reader, and the records read through the writer, and compares each reply and each canonical text with the
// expected one. They stand in the file `stdin`, a line each, and not in the source: a byte of a literal costs the checker a millisecond, and
// every call more. It reads and prints by the kit's `io`, and takes no memory from a heap: std's printing and `Vec` would stand on more functions
// of the C library than `read` and `write`.
#![tactic(auto)]

mod rows;
mod texts;

use rows::Row;

// Room for the table. Of a longer one the last replies would be missing.
const ROOM: usize = 262144;

fn main() {
    let mut table = [0u8; ROOM];
    let n = io::read_full(0, &mut table);
    let mut right = 0u64;
    let mut wrong = 0u64;
    let lines = table[..n].split(|byte| *byte == b'\n');
    for row in lines.filter_map(Row::parse) {
        if row.judge() {
            right = right.saturating_add(1);
        } else {
            wrong = wrong.saturating_add(1);
        }
    }
    io::print_decimal(1, right);
    io::write_all(1, b" ok, ");
    io::print_decimal(1, wrong);
    io::write_all(1, b" wrong\n");
}
