// One word's letters and figures: the leaves that every kind of word is read by.
#![tactic(auto)]

ghost use Rattle.std.specs.Prelude.{◌≡◌, eqb, ltb, position};
ghost use Rattle.lists.specs.Choice.{found};
ghost use Rattle.figures.specs.Figures.{figures_of, two_of, three_of};
ghost use Rattle.figures.specs.Letters.{letters_of};
ghost use Rattle.figures.specs.Codes.{code_of};

use words::{is_digit, is_letter};

// A word of k letters as one number, k from 1 to 4.
pub fn letters(w: &[u8], k: usize) -> Option<u32>
    ensures { result ≡ found (ltb 0) (letters_of k w.now) }
{
    if 4 < k {
        return None;
    }
    if w.len() != k {
        return None;
    }
    let mut n: u32 = 0;
    for x in w {
        if !is_letter(*x) {
            return None;
        }
        n = n * 256 + *x as u32;
    }
    if 0 < n { Some(n) } else { None }
}

// What at most five figures count.
pub fn figures(w: &[u8]) -> Option<u32>
    ensures { result ≡ found (λ n. ltb n 100000) (figures_of w.now) }
{
    if 5 < w.len() {
        return None;
    }
    let mut n: u32 = 0;
    for x in w {
        if !is_digit(*x) {
            return None;
        }
        n = n * 10 + (*x - b'0') as u32;
    }
    Some(n)
}

// The same where the figures count less than 100. `two` and `three` stay two functions: one over the bound and the type of its number would be
// no shorter than these two lines, and each caller would have to name both.
pub fn two(w: &[u8]) -> Option<u8>
    ensures { result ≡ found (λ n. ltb n 100) (two_of w.now) }
{
    let n = figures(w)?;
    if n < 100 { Some(n as u8) } else { None }
}

// The same where the figures count less than 1,000.
pub fn three(w: &[u8]) -> Option<u16>
    ensures { result ≡ found (λ n. ltb n 1000) (three_of w.now) }
{
    let m = figures(w)?;
    if m < 1000 { Some(m as u16) } else { None }
}

// The code of a word of at most seven bytes: a 1 and then its bytes; 0, the code of no word, of a longer one.
pub fn code(w: &[u8]) -> u64
    ensures { result ≡ code_of w.now }
{
    if 7 < w.len() {
        return 0;
    }
    let mut n: u64 = 1;
    for x in w {
        n = n * 256 + *x as u64;
    }
    n
}

// The place of a code in a table of codes.
pub fn find(table: &[u64], code: u64) -> Option<usize>
    ensures { result ≡ position (eqb code) table.now }
{
    table.iter().position(|known| code == *known)
}
