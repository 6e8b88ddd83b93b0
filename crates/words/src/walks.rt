// The walk that finds where a word begins and where it ends.
ghost use Rattle.std.specs.Prelude.{◌≡◌, Bool, ℕ};
ghost use Rattle.lists.specs.Lists.{index_from};

// The first place from `start` on whose byte passes the test: the text's length where none does (past the text, `start`).
pub(crate) fn first<F: Fn(u8) -> bool>(b: &[u8], start: usize, test: F) -> usize
    requires { F.IsAlwaysCallable test }
    ensures { (f : ℕ → Bool) → ((x : ℕ) (r : Bool) → F.post test x r → r ≡ f x) → result ≡ index_from f start b.now }
{
    for i in start..b.len() {
        if test(b[i]) {
            return i;
        }
    }
    start.max(b.len())
}
