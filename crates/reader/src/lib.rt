// The reader: bytes to a reply.
#![tactic(auto)]

ghost use Rattle.std.specs.Prelude.{◌≡◌};
ghost use Rattle.grammar.specs.Reads.{read_of};

use grammar::{Reply, refusal};
use reader_sections::read_text;
use words::{Fault, check};

// The reply to any bytes: numbers 1 to 3, then the words.
pub fn read(bulletin: &[u8]) -> Reply
    ensures { result ≡ read_of bulletin.now }
{
    match check(bulletin) {
        Ok(end) => read_text(&bulletin[..end]),
        Err(Fault::Length) => refusal(1, 0, 0),
        Err(Fault::Barred(place)) => refusal(2, place, 1),
        Err(Fault::NoEquals(place)) => refusal(3, place, 0),
        Err(Fault::Behind(place)) => refusal(3, place, 1),
    }
}
