// The calls that a script asks for, each with the line that it prints.
use crate::line::Line;
use crate::script::{Command, ROOM};
use board::{Board, Posted};
use listing::list;
use reader::read;

impl Command<'_> {
    pub(crate) fn carry_out(self, board: &mut Board, line: &mut Line) {
        match self {
            Command::Post { clock, bulletin } => post(board, clock, bulletin, line),
            Command::List { time, room } => {
                let mut buffer = [0; ROOM];
                list_into(*board, time, &mut buffer[..room.bytes], line);
            }
        }
    }
}

// Reads a bulletin and gives what it says to the board.
fn post(board: &mut Board, clock: u32, bulletin: &[u8], line: &mut Line) {
    let reply = read(bulletin);
    if reply.number != 0 {
        line.begin(b'r');
        line.number(u64::from(reply.number));
        line.number(reply.place as u64);
        line.number(reply.length as u64);
        return line.print();
    }
    let Posted {
        answer,
        board: next,
    } = board.post(clock, reply.message);
    *board = next;
    line.begin(b'p');
    line.number(u64::from(answer));
    line.print();
}

// Lists at a time into a buffer. What was listed follows the count in hexadecimal, where that is not 0.
fn list_into(board: Board, time: u32, out: &mut [u8], line: &mut Line) {
    let listed = list(board, time, out);
    let bytes = &out[..listed.count];
    line.begin(b'l');
    line.number(u64::from(listed.number));
    line.number(bytes.len() as u64);
    if !bytes.is_empty() {
        line.hex(bytes);
    }
    line.print();
}
