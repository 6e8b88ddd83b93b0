// A name in a record.
ghost use Rattle.std.specs.Prelude.{◌≡◌, ◌≤◌};
ghost use Rattle.message.specs.Limits.{name_bytes};
ghost use Rattle.message.specs.Names.{good_name, empty_name};

use crate::{NO_NAME, Name};
use names::name_text;

impl Name {
    // Is it the text of a name, of so many bytes at most, and zeros behind it?
    #[tactic(auto, unfolding(crate::specs::Names::good_name))]
    pub(crate) fn is_good(&self, mountain: bool, limit: usize) -> bool
        requires { limit ≤ name_bytes }
        ensures { result ≡ good_name mountain limit self.now }
    {
        let Name { bytes, count } = *self;
        if count < 1 || limit < count {
            return false;
        }
        let (text, unused) = bytes.split_at(count);
        unused.iter().all(|b| *b == 0) && name_text(text, mountain)
    }

    #[tactic(auto, using(crate::proofs::Equalities::name_empty))]
    pub(crate) fn is_empty(&self) -> bool
        ensures { result ≡ empty_name self.now }
    {
        *self == NO_NAME
    }
}
