// Choice and list laws that every other crate cites: specs/ has the definitions, proofs/ the laws. The code is the two
// connectives as functions. No crate calls them any more, for the code of the others has `&&` and `||`; they stay, for
// they are public, and what they promise stays promised (`both-determined` and `either-determined`).
#![tactic(auto)]

ghost use Rattle.std.specs.Prelude.{◌≡◌};
ghost use Rattle.lists.specs.Choice.{both as both_of, either as either_of};

pub fn both(a: bool, b: bool) -> bool
    ensures { result ≡ both_of a b }
{
    if a { b } else { false }
}

pub fn either(a: bool, b: bool) -> bool
    ensures { result ≡ either_of a b }
{
    if a { true } else { b }
}
