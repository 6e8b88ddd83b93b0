// A pen over a lent buffer. It stands at a place, puts bytes there and answers with the place behind them. At the end of the buffer it
// stops: what does not fit is not put, and the pen stays.
#![tactic(auto)]

ghost use Rattle.std.specs.Prelude.{[], ◌∷◌, ◌≡◌, ◌==◌, not, ◌+◌, ◌≤◌, ◌<◌, position};
ghost use Rattle.lists.specs.Base.{places};
ghost use Rattle.figures.specs.Codes.{spell_code};
ghost use Rattle.figures.specs.Figures.{in_figures};
ghost use Rattle.pens.specs.Pens.{Puts, Words, shifted};

// What writing comes to: the refusal number, 0 for none, and the count of bytes written, 0 where refused. A struct and no Result, since this is
// the paper's reply: "Count 0, buffer untouched".
#[derive(Clone, Copy)]
pub struct Written {
    pub number: u8,
    pub count: usize,
}

pub fn refused(number: u8) -> Written
    ensures { (result.number ≡ number) × (result.count ≡ 0) }
{
    Written { number, count: 0 }
}

// One byte.
#[tactic(auto, unfolding(crate::specs::Pens::strokes, crate::specs::Pens::stroke))]
pub fn put(out: &mut [u8], at: usize, x: u8) -> usize
    ensures { Puts (x ∷ []) at out.old result out.new }
{
    if at < out.len() {
        out[at] = x;
        return at + 1;
    }
    at
}

// All bytes of a text.
pub fn put_all(out: &mut [u8], at: usize, text: &[u8]) -> usize
    ensures { Puts text.now at out.old result out.new }
{
    let mut next = at;
    for x in text {
        next = put(out, next, *x);
    }
    next
}

// A space, and a word behind it.
#[tactic(auto, using(crate::proofs::PenLaws::in_turn), unfolding(crate::specs::Pens::strokes, crate::specs::Pens::spaced))]
pub fn put_word(out: &mut [u8], at: usize, word: &[u8]) -> usize
    ensures { Words (word.now ∷ []) at out.old result out.new }
{
    let next = put(out, at, b' ');
    put_all(out, next, word)
}

// The last k places of n in a base, the greatest first, each put as a byte from FIRST on. It calls itself as the definition does: places stand
// from the greatest to the least, and are known from the least on.
fn put_places<const BASE: u32, const FIRST: u8>(out: &mut [u8], at: usize, n: u32, k: u8) -> usize
    requires { (0 < BASE) × (BASE + FIRST ≤ 256) }
    ensures { Puts (shifted FIRST BASE k n) at out.old result out.new }
{
    if k == 0 {
        return at;
    }
    let next = put_places::<BASE, FIRST>(out, at, n / BASE, k - 1);
    put(out, next, (n % BASE) as u8 + FIRST)
}

// The last k decimal figures of n.
pub fn put_figures(out: &mut [u8], at: usize, n: u32, k: u8) -> usize
    ensures { Puts (in_figures k n) at out.old result out.new }
{
    put_places::<10, b'0'>(out, at, n, k)
}

// The last k bytes of n, the greatest first: letters are kept so, and the numbers of a listing are written so.
pub fn put_big_endian(out: &mut [u8], at: usize, n: u32, k: u8) -> usize
    ensures { Puts (places 256 k n) at out.old result out.new }
{
    put_places::<256, 0>(out, at, n, k)
}

// Where the 1 of a code stands among its bytes: it is the first that is not 0.
fn one_of(bytes: &[u8]) -> Option<usize>
    ensures { result ≡ position (λ x. not (x == 0)) bytes.now }
{
    bytes.iter().position(|x| *x != 0)
}

// The word of a code: the bytes behind its 1.
pub fn put_code(out: &mut [u8], at: usize, code: u64) -> usize
    ensures { Puts (spell_code code) at out.old result out.new }
{
    let bytes = code.to_be_bytes();
    let Some(one) = one_of(&bytes) else {
        return at;
    };
    put_all(out, at, &bytes[one + 1..])
}

// A space, and the word of a code behind it.
#[tactic(auto, using(crate::proofs::PenLaws::in_turn), unfolding(crate::specs::Pens::strokes, crate::specs::Pens::spaced))]
pub fn put_fixed(out: &mut [u8], at: usize, code: u64) -> usize
    ensures { Words (spell_code code ∷ []) at out.old result out.new }
{
    let first = put(out, at, b' ');
    put_code(out, first, code)
}
