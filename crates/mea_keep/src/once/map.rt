mod steps;

use crate::computed::Computed;
use crate::computing::Computing;
use crate::keyed::{KeyClaim, KeyClaiming, KeyFilling, Keyed, clone_of};
use crate::unfailing::Unfailing;
use mea_base::{NoMemory, Wake};
use mea_once_core::{Init, MapCore, Never};
use std::alloc::Global;
use std::hash::{BuildHasher, BuildHasherDefault, FoldHasher, Hash};
use std::sync::Wait;
use std::sync::atomic::AtomicU64;
use std::sync::atomic::Ordering::SeqCst;

// The core of a map, whose calls have promises.
type Core<K, V, S, W> = MapCore<K, Computed<V>, S, Option<W>>;

/// A map whose values are computed once for each key, and stay. Each caller has a clone of the value. It ports
/// `mea::once::OnceMap`.
pub struct OnceMap<K: Eq + Hash, V, S: BuildHasher, W> {
    keyed: Keyed<Core<K, V, S, W>>,
    // How many times an entry has left; it changes while the lock is held alone.
    removals: AtomicU64,
}

// Written out: a derived one is proved anew in each crate that hands a value of this type to a generic function.
impl<K: Eq + Hash + Drop, V: Drop, S: BuildHasher + Drop, W: Drop> Drop for OnceMap<K, V, S, W> {
    fn drop(self) {
        let OnceMap {
            keyed: _,
            removals: _,
        } = self;
    }
}

/// A map with std's hasher, as `OnceMap::new` gives it. It has no secret seed: keys that strangers choose may collide, and ask
/// for a hasher of one's own.
pub type FoldOnceMap<K, V, W> = OnceMap<K, V, BuildHasherDefault<FoldHasher>, W>;

/// The future of `OnceMap::claim`.
pub type MapClaiming<'a, K, V, S, W> = KeyClaiming<'a, Core<K, V, S, W>, K, V, W>;

/// What `OnceMap::claim` gives where the key has no value: it must be spent.
pub type MapClaim<'a, K, V, S, W> = KeyClaim<'a, Core<K, V, S, W>, K, V, W>;

/// What comes back of a `MapClaim` where there is no memory to keep or to clone the value: it must be spent.
pub type MapFilling<'a, K, V, S, W> = KeyFilling<'a, Core<K, V, S, W>, K, V, W>;

/// The future of `OnceMap::try_compute`.
pub type MapTryCompute<'a, K, V, E, I, S, W> = Computing<
    MapClaiming<'a, K, V, S, W>,
    MapClaim<'a, K, V, S, W>,
    MapFilling<'a, K, V, S, W>,
    I,
    V,
    E,
>;

/// The future of `OnceMap::compute`.
pub type MapCompute<'a, K, V, I, S, W> = Unfailing<MapTryCompute<'a, K, V, Never, I, S, W>>;

impl<K: Eq + Hash + Drop, V: Clone + Drop, W: Wake> OnceMap<
    K,
    V,
    BuildHasherDefault<FoldHasher>,
    W,
> {
    /// A map with no entry. It takes no memory.
    pub fn new(alloc: Global) -> Self {
        OnceMap::with_hasher(alloc, BuildHasherDefault::new())
    }

    /// A map with no entry, and with room for so many, for which it takes memory.
    pub fn with_capacity(alloc: Global, capacity: usize) -> Result<Self, NoMemory> {
        OnceMap::with_capacity_and_hasher(alloc, capacity, BuildHasherDefault::new())
    }
}

impl<K: Eq + Hash + Drop, V: Clone + Drop, S: BuildHasher + Drop, W: Wake> OnceMap<K, V, S, W> {
    ghost use Rattle.std.specs.Prelude.{◌≡◌};

    /// `new` with a hasher of the caller's. It takes no memory.
    pub fn with_hasher(alloc: Global, hasher: S) -> Self {
        OnceMap {
            keyed: Keyed::of(alloc, MapCore::with_hasher(alloc, hasher)),
            removals: AtomicU64::new(0),
        }
    }

    /// `with_capacity` with a hasher of the caller's. It takes memory as that does.
    pub fn with_capacity_and_hasher(
        alloc: Global,
        capacity: usize,
        hasher: S,
    ) -> Result<Self, NoMemory> {
        let core = MapCore::with_capacity_and_hasher(alloc, capacity, hasher)?;
        Ok(OnceMap {
            keyed: Keyed::of(alloc, core),
            removals: AtomicU64::new(0),
        })
    }

    /// A map of these pairs, in which the last pair of a key stands. It takes memory for them; where there is none, they are
    /// dropped.
    pub fn from_pairs(alloc: Global, pairs: Vec<(K, V)>, hasher: S) -> Result<Self, NoMemory> {
        let mut kept = Vec::new(alloc);
        for (key, value) in pairs {
            let Ok(value) = Computed::new(alloc, value) else {
                return Err(NoMemory);
            };
            kept.push((key, value))?;
        }
        let core = MapCore::from_pairs(alloc, kept, hasher)?;
        Ok(OnceMap {
            keyed: Keyed::of(alloc, core),
            removals: AtomicU64::new(0),
        })
    }

    /// A wait for the key's value, or for the turn to compute it. It takes no memory before its first poll.
    pub fn claim(&self, key: K) -> MapClaiming<'_, K, V, S, W> {
        self.keyed.claiming(key)
    }

    /// A wait for the key's value, which runs the initialiser where no other computes it. It takes no memory before its
    /// first poll.
    pub fn compute<I: Init<V, Never, W>>(&self, key: K, init: I) -> MapCompute<'_, K, V, I, S, W>
        ensures { result.wait.init ≡ init }
    {
        Unfailing::of(Computing::of(self.keyed.claiming(key), init))
    }

    /// `compute`, whose initialiser may have an error; then the turn goes to the next that waits.
    pub fn try_compute<E, I: Init<V, E, W>>(
        &self,
        key: K,
        init: I,
    ) -> MapTryCompute<'_, K, V, E, I, S, W>
        ensures { result.init ≡ init }
    {
        Computing::of(self.keyed.claiming(key), init)
    }

    /// A clone of the key's value, if it has one. It is refused where the clone is, or no further share of the value can be
    /// had.
    pub fn get<R: Wait>(&self, rt: &R, key: &K) -> Result<Option<V>, NoMemory> {
        let kept = self.keyed.core.lock(rt).get(key)?;
        match kept {
            Some(kept) => Ok(Some(clone_of(&kept)?)),
            None => Ok(None),
        }
    }

    /// The key's entry leaves the map, and stays for its callers. It takes no memory.
    pub fn discard<R: Wait>(&self, rt: &R, key: &K) {
        let _kept = {
            let mut core = self.keyed.core.lock(rt);
            self.removals.fetch_add(1, SeqCst);
            steps::discard(&mut *core, key)
        };
    }

    /// The key's entry leaves the map, and stays for its callers; a clone of its value is handed out. With no memory
    /// nothing has changed.
    ///
    /// The clone is made with no lock held. So it is made anew where an entry has left the map meanwhile.
    pub fn remove<R: Wait>(&self, rt: &R, key: &K) -> Result<Option<V>, NoMemory> {
        for _ in rt.forever() {
            let (kept, removals) = self.find(rt, key)?;
            let Some(kept) = kept else {
                return Ok(None);
            };
            let value = clone_of(&kept)?;
            if self.discard_since(rt, key, removals) {
                return Ok(Some(value));
            }
        }
        unreachable!()
    }

    // The key's value, and how many entries had left by then. An entry without a value leaves the map at once.
    fn find<R: Wait>(&self, rt: &R, key: &K) -> Result<(Option<Computed<V>>, u64), NoMemory> {
        let mut core = self.keyed.core.lock(rt);
        let kept = steps::find(&mut *core, key)?;
        if kept.is_none() {
            self.removals.fetch_add(1, SeqCst);
        }
        Ok((kept, self.removals.load(SeqCst)))
    }

    // The key's entry leaves the map, unless one has left since, and tells whether it did.
    fn discard_since<R: Wait>(&self, rt: &R, key: &K, removals: u64) -> bool {
        let mut core = self.keyed.core.lock(rt);
        if self.removals.load(SeqCst) != removals {
            return false;
        }
        self.removals.fetch_add(1, SeqCst);
        core.discard(key);
        true
    }
}
