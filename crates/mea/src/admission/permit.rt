ghost use Rattle.std.specs.Prelude.{◌≡◌};

use crate::admission::FairShare;
use mea_base::Wake;
use mea_share_core::SharedKey;
use mea_wait::{End, Holds};
use std::hash::{BuildHasher, BuildHasherDefault, FoldHasher, Hash};
use std::marker::{Model, PhantomData};
use std::sync::{Arc, Wait};

/// A permit of a key. It must be ended. A contract sees of it whose it is.
pub struct SharePermit<H, K, W, S> {
    of: H,
    key: SharedKey<K>,
    kind: PhantomData<(W, S)>,
}

/// A permit that borrows its admission. It ports `mea::admission::FairSharePermit`.
pub type FairSharePermit<'a, K, W, S = BuildHasherDefault<FoldHasher>> = SharePermit<
    &'a FairShare<K, W, S>,
    K,
    W,
    S,
>;

/// A permit that owns a share of its admission. It ports `mea::admission::OwnedFairSharePermit`.
pub type OwnedFairSharePermit<K, W, S = BuildHasherDefault<FoldHasher>> = SharePermit<
    Arc<FairShare<K, W, S>>,
    K,
    W,
    S,
>;

impl<H, K, W, S> Model for SharePermit<H, K, W, S> {
    ghost Value = { K };

    ghost coded = { K.code };

    ghost view = { λ p. p.key };
}

impl<K: Eq + Hash + Drop, W: Wake, S: BuildHasher + Drop, H: Holds<FairShare<K, W, S>>> SharePermit<
    H,
    K,
    W,
    S,
> {
    // A permit that was just taken.
    pub(super) fn of(of: H, key: SharedKey<K>) -> Self
        ensures { result ≡ key }
    {
        SharePermit {
            of,
            key,
            kind: PhantomData,
        }
    }

    /// Whose permit it is. It takes no memory.
    pub fn key(&self) -> &K
        ensures { result.now ≡ self.now }
    {
        self.key.key()
    }
}

impl<K: Eq + Hash + Drop, W: Wake, S: BuildHasher + Drop, H: Holds<FairShare<K, W, S>>> End
    for SharePermit<H, K, W, S> {
    fn end<R: Wait>(self, rt: &R) {
        let SharePermit { of, key, kind: _ } = self;
        of.held().give_back(rt, &key);
    }
}
