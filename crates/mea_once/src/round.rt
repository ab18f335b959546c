ghost use Rattle.std.specs.Prelude.{◌≡◌};
ghost use Rattle.mea_once.specs.Entries.{runs};
ghost use Rattle.mea_once.specs.KeyEntries.{new_round};

use mea_by_name::NamedWaker;

/// What a hall keeps of a round beside its core: its key, the number of its entry there, the waker that the initialiser of
/// the caller whose turn it is keeps, and how many callers it has.
#[derive(Clone, Copy, Drop)]
pub struct Round {
    pub key: u64,
    pub entry: usize,
    pub running: Option<NamedWaker>,
    pub callers: u128,
}

impl Round {
    /// A round with one caller, and no entry yet.
    pub fn new(key: u64) -> Self
        ensures { result ≡ new_round key }
    {
        Round {
            key,
            entry: 0,
            running: None,
            callers: 1,
        }
    }

    /// Whether the initialiser of `f` keeps a waker.
    pub fn runs(&self, f: u64) -> bool
        ensures { result ≡ runs self.now.running f }
    {
        match self.running {
            Some(kept) => kept.name == f,
            None => false,
        }
    }
}
