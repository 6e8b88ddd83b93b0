// The program: one bulletin on standard input, at most 2,049 bytes of it. It prints the refusal number, a space, the place, a space, the length
// and LF; on 0 also the canonical text and LF. It reads and prints by the kit's `io`: std's printing would stand on more functions of the C
// library than `read` and `write`.
#![tactic(auto)]

use message::Record;
use reader::read;
use writer::write;

fn main() {
    // One byte more than the longest bulletin, so that a longer one is seen as such.
    let mut bulletin = [0; 2049];
    let n = io::read_full(0, &mut bulletin);
    let reply = read(&bulletin[..n]);
    io::print_decimal(1, u64::from(reply.number));
    io::write_all(1, b" ");
    io::print_decimal(1, reply.place as u64);
    io::write_all(1, b" ");
    io::print_decimal(1, reply.length as u64);
    io::write_all(1, b"\n");
    if reply.number == 0 {
        print_text(reply.message);
    }
}

// The record of a reply that refuses nothing is good, and its text has at most 2,048 bytes: so it is written.
fn print_text(message: Record) {
    let mut text = [0; 2048];
    let written = write(message, &mut text);
    io::write_all(1, &text[..written.count]);
    io::write_all(1, b"\n");
}
