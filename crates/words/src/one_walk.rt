// The one walk of `check`, which loads no byte twice: four bytes a turn up to the first turn that has a `=` or a byte that is not allowed, and
// from there on one by one, as also the last bytes, which fill no turn.
ghost use Rattle.std.specs.Prelude.{◌≡◌, ◌+◌, ◌≤◌, ℕ, length, drop};
ghost use Rattle.words.specs.Check.{told};
ghost use Rattle.words.specs.Kinds.{Kinds};
ghost use Rattle.words.specs.Seen.{no_equals, shown, matters_from, seen_at, four_seen, all_seen};

use crate::Fault;
use crate::table::{BARRED, EQUALS, WORD, kind_of};

// What the bytes up to a place tell: there is no `=` so far; behind the first `=`, which stands at this place, are only blanks; something else
// stands there, first at this place; or the byte at this place is not allowed, and that settles it.
#[derive(Clone, Copy)]
pub(crate) enum SoFar {
    NoEquals,
    Blanks(usize),
    Behind(usize),
    Barred(usize),
}

impl SoFar {
    // The least kind of byte that can change what is known, if it is not settled.
    #[tactic(auto, unfolding(crate::specs::Seen::matters_from))]
    fn matters_from(self) -> u8
        ensures { (n : ℕ) → result ≡ matters_from (shown n self) }
    {
        match self {
            SoFar::NoEquals => EQUALS,
            SoFar::Blanks(_) => WORD,
            SoFar::Behind(_) | SoFar::Barred(_) => BARRED,
        }
    }

    // What is known when a byte of this kind was seen at this place, too.
    fn seen(self, place: usize, kind: u8) -> SoFar
        ensures { (n : ℕ) → shown n result ≡ seen_at (shown n self) place kind }
    {
        if let SoFar::Barred(_) = self {
            return self;
        }
        if kind < self.matters_from() {
            return self;
        }
        if kind == BARRED {
            return SoFar::Barred(place);
        }
        match self {
            SoFar::Blanks(_) => SoFar::Behind(place),
            _ => SoFar::Blanks(place),
        }
    }

    // The same of the four bytes of a turn, from this place on.
    #[tactic(auto, unfolding(crate::specs::Seen::four_seen))]
    fn turn(self, place: usize, k0: u8, k1: u8, k2: u8, k3: u8) -> SoFar
        requires { place + 3 ≤ 18446744073709551615 }
        ensures { (n : ℕ) → shown n result ≡ four_seen (shown n self) place k0 k1 k2 k3 }
    {
        let two = self.seen(place, k0).seen(place + 1, k1);
        two.seen(place + 2, k2).seen(place + 3, k3)
    }

    // The same of all bytes from a place on.
    fn rest(self, b: &[u8], kinds: &[u8; 256], from: usize) -> SoFar
        requires { Kinds kinds.now }
        ensures { (n : ℕ) → shown n result ≡ all_seen (shown n self) from (drop from b.now) }
    {
        if let SoFar::Barred(_) = self {
            return self;
        }
        let mut known = self;
        let mut least = known.matters_from();
        for i in from..b.len() {
            let kind = kind_of(kinds, b[i]);
            if least <= kind {
                known = known.seen(i, kind);
                if let SoFar::Barred(_) = known {
                    return known;
                }
                least = known.matters_from();
            }
        }
        known
    }

    // The answer, of so many bytes.
    fn answer(self, length: usize) -> Result<usize, Fault>
        ensures { told result ≡ shown length self }
    {
        match self {
            SoFar::NoEquals => Err(Fault::NoEquals(length)),
            SoFar::Blanks(equals) => Ok(equals),
            SoFar::Behind(place) => Err(Fault::Behind(place)),
            SoFar::Barred(place) => Err(Fault::Barred(place)),
        }
    }
}

// The answer. If one of four kinds is `=` or `?`, their sum is more than that of four `.`, even beside three blanks.
pub(crate) fn walk(b: &[u8], kinds: &[u8; 256]) -> Result<usize, Fault>
    requires { Kinds kinds.now }
    ensures { told result ≡ all_seen (no_equals (length b.now)) 0 b.now }
{
    let length = b.len();
    let mut i = 0;
    // Counted by hand, in fours: the place of a turn is part of the answer, and `rest` goes on behind it. Chunks of four would hide it.
    while 3 < length - i {
        let k0 = kind_of(kinds, b[i]);
        let k1 = kind_of(kinds, b[i + 1]);
        let k2 = kind_of(kinds, b[i + 2]);
        let k3 = kind_of(kinds, b[i + 3]);
        if 4 * WORD < k0 + k1 + (k2 + k3) {
            let known = SoFar::NoEquals.turn(i, k0, k1, k2, k3);
            return known.rest(b, kinds, i + 4).answer(length);
        }
        i += 4;
    }
    SoFar::NoEquals.rest(b, kinds, i).answer(length)
}
