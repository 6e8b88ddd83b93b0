// The reply of the reader, and a refusal. The grammar itself is a definition, in specs/: no code runs it.
#![tactic(auto)]

ghost use Rattle.std.specs.Prelude.{◌≡◌};
ghost use Rattle.grammar.specs.Bulletins.{refusal as refusal_of};

use message::{NO_RECORD, Record};

// The refusal number, the place and the length of what is refused there, each 0 for none; and the record, all zero where refused.
// A struct and no Result, since this is the paper's reply: "A refusal returns an empty record, all zero."
#[derive(Clone, Copy)]
pub struct Reply {
    pub number: u8,
    pub place: usize,
    pub length: usize,
    pub message: Record,
}

// A refusal returns an empty record.
pub fn refusal(number: u8, place: usize, length: usize) -> Reply
    ensures { result ≡ refusal_of number place length }
{
    Reply {
        number,
        place,
        length,
        message: NO_RECORD,
    }
}
