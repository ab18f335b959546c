//! A group whose calls of one key share a computation: `mea::singleflight`.
use crate::computed::Computed;
use crate::computing::Computing;
use crate::keyed::Keyed;
pub use crate::keyed::{KeyClaim, KeyClaiming, KeyFilling};
use crate::unfailing::Unfailing;
use mea_base::Wake;
use mea_once_core::{FlightCore, Init, Never};
use std::alloc::Global;
use std::hash::{BuildHasher, BuildHasherDefault, FoldHasher, Hash};
use std::sync::Wait;

// The core of a group, whose calls have promises.
type Core<K, V, S, W> = FlightCore<K, Computed<V>, S, Option<W>>;

/// Calls of one key that come while another computes share its value; the next one computes anew. Each caller has a clone
/// of the value. It ports `mea::singleflight::Group`.
pub struct Group<K: Eq + Hash, V, S: BuildHasher, W> {
    keyed: Keyed<Core<K, V, S, W>>,
}

// Written out: a derived one is proved anew in each crate that hands a value of this type to a generic function.
impl<K: Eq + Hash + Drop, V: Drop, S: BuildHasher + Drop, W: Drop> Drop for Group<K, V, S, W> {
    fn drop(self) {
        let Group { keyed: _ } = self;
    }
}

/// A group with std's hasher, as `Group::new` gives it. It has no secret seed: keys that strangers choose may collide, and ask
/// for a hasher of one's own.
pub type FoldGroup<K, V, W> = Group<K, V, BuildHasherDefault<FoldHasher>, W>;

/// The future of `Group::claim`.
pub type GroupClaiming<'a, K, V, S, W> = KeyClaiming<'a, Core<K, V, S, W>, K, V, W>;

/// What `Group::claim` gives where nobody computes the key's value: it must be spent.
pub type GroupClaim<'a, K, V, S, W> = KeyClaim<'a, Core<K, V, S, W>, K, V, W>;

/// What comes back of a `GroupClaim` where there is no memory to keep or to clone the value: it must be spent.
pub type GroupFilling<'a, K, V, S, W> = KeyFilling<'a, Core<K, V, S, W>, K, V, W>;

/// The future of `Group::try_work`.
pub type GroupTryWork<'a, K, V, E, I, S, W> = Computing<
    GroupClaiming<'a, K, V, S, W>,
    GroupClaim<'a, K, V, S, W>,
    GroupFilling<'a, K, V, S, W>,
    I,
    V,
    E,
>;

/// The future of `Group::work`.
pub type GroupWork<'a, K, V, I, S, W> = Unfailing<GroupTryWork<'a, K, V, Never, I, S, W>>;

impl<K: Eq + Hash + Drop, V: Clone + Drop, W: Wake> Group<K, V, BuildHasherDefault<FoldHasher>, W> {
    /// A group with no call. It takes no memory.
    pub fn new(alloc: Global) -> Self {
        Group::with_hasher(alloc, BuildHasherDefault::new())
    }
}

impl<K: Eq + Hash + Drop, V: Clone + Drop, S: BuildHasher + Drop, W: Wake> Group<K, V, S, W> {
    ghost use Rattle.std.specs.Prelude.{◌≡◌};

    /// `new` with a hasher of the caller's. It takes no memory.
    pub fn with_hasher(alloc: Global, hasher: S) -> Self {
        Group {
            keyed: Keyed::of(alloc, FlightCore::with_hasher(alloc, hasher)),
        }
    }

    /// A wait for the value that another computes for the key, or for the turn to compute it. It takes no memory before
    /// its first poll.
    pub fn claim(&self, key: K) -> GroupClaiming<'_, K, V, S, W> {
        self.keyed.claiming(key)
    }

    /// A wait for the value that another computes for the key, which runs the initialiser where no other does. It takes no
    /// memory before its first poll.
    pub fn work<I: Init<V, Never, W>>(&self, key: K, init: I) -> GroupWork<'_, K, V, I, S, W>
        ensures { result.wait.init ≡ init }
    {
        Unfailing::of(Computing::of(self.keyed.claiming(key), init))
    }

    /// `work`, whose initialiser may have an error; then the turn goes to the next that waits.
    pub fn try_work<E, I: Init<V, E, W>>(
        &self,
        key: K,
        init: I,
    ) -> GroupTryWork<'_, K, V, E, I, S, W>
        ensures { result.init ≡ init }
    {
        Computing::of(self.keyed.claiming(key), init)
    }

    /// Later calls of the key compute anew; those that run are not changed. It takes no memory.
    pub fn forget<R: Wait>(&self, rt: &R, key: &K) {
        self.keyed.core.lock(rt).forget(key);
    }
}
