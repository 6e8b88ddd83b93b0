// The listing: what is in force at a time, as records in a lent buffer.
#![tactic(auto)]

ghost use Rattle.std.specs.Prelude.{◌≡◌, ◌+◌, ◌*◌, ◌≤◌, length};
ghost use Rattle.pens.specs.Outcomes.{wrote};
ghost use Rattle.pens.specs.Pens.{Puts};
ghost use Rattle.listing.specs.Holding.{PutsListing};
ghost use Rattle.listing.specs.Listings.{time_record, correction_byte, message_record};
ghost use Rattle.listing.specs.Answers.{list_of};

mod ordering;
mod rows;

use board::Board;
use pens::{Written, put, put_big_endian, refused};
use places::Place;
use rows::rows_at;

fn put_time(out: &mut [u8], time: u32) -> usize
    ensures { Puts (time_record time) 0 out.old result out.new }
{
    let next = put(out, 0, 1);
    put_big_endian(out, next, time, 4)
}

fn correction_byte(c: u8) -> u8
    ensures { result ≡ correction_byte c }
{
    if c == 0 { b' ' } else { c }
}

// The record of one message, at the front of what is lent.
fn put_record(out: &mut [u8], p: Place) -> usize
    ensures { Puts (message_record p) 0 out.old result out.new }
{
    let correction = correction_byte(p.correction);
    let a = put(out, 0, p.identity.kind);
    let b = put_big_endian(out, a, p.identity.area, 4);
    let c = put_big_endian(out, b, p.identity.sequence, 3);
    let d = put(out, c, correction);
    let e = put_big_endian(out, d, p.identity.start, 4);
    put_big_endian(out, e, p.identity.end, 4)
}

// The whole listing, for which there is room. Each record goes in from the place where the one before it ended.
fn put_listing(out: &mut [u8], time: u32, rows: &[Place]) -> usize
    requires { 5 + length rows.now * 17 ≤ length out.old }
    ensures { PutsListing time rows.now out.old result out.new }
{
    let mut at = put_time(out, time);
    for p in rows {
        at += put_record(&mut out[at..], *p);
    }
    at
}

// Lists what is in force at a time, at the front of the buffer.
pub fn list(board: Board, time: u32, out: &mut [u8]) -> Written
    ensures { wrote result out.new ≡ list_of board time out.old }
{
    if let Err(refusal) = board.refusal_at(time) {
        return refused(refusal.number());
    }
    let found = rows_at(time, board.places);
    let rows = found.as_slice();
    if out.len() < 5 + rows.len() * 17 {
        return refused(14);
    }
    let count = put_listing(out, time, rows);
    Written { number: 0, count }
}
