//! Fair admission that threads and tasks share: `mea::admission`.
ghost use Rattle.std.specs.Prelude.{◌≡◌, IfOk};

mod permit;
mod steps;
mod wait;

use mea_base::{NoMemory, Wake};
use mea_share_core::{FairCore, SharedKey};
use mea_wait::hand_out;
pub use permit::{FairSharePermit, OwnedFairSharePermit, SharePermit};
use std::alloc::Global;
use std::hash::{BuildHasher, BuildHasherDefault, FoldHasher, Hash};
use std::num::NonZeroU64;
use std::sync::{Arc, Mutex, Wait};
pub use wait::{Admission, OwnedShareWait, ShareWait};

/// Permits that keys share: who waits is admitted in the order of what the keys hold for their weights, and among equal
/// keys in that of their first polls.
///
/// Each call takes the lock round the core, makes its step there, leaves the lock, and wakes whom the step has admitted.
/// A key is kept behind an `Arc`, so it is never cloned; its hash and its equality run while the lock is held. It ports
/// `mea::admission::FairShare`; weights are this library's own.
pub struct FairShare<K: Eq + Hash, W, S: BuildHasher = BuildHasherDefault<FoldHasher>> {
    alloc: Global,
    core: Mutex<FairCore<K, W, S>>,
}

// Written out: a derived one is proved anew in each crate that hands a value of this type to a generic function.
impl<K: Eq + Hash + Drop, W: Drop, S: BuildHasher + Drop> Drop for FairShare<K, W, S> {
    fn drop(self) {
        let FairShare { alloc: _, core: _ } = self;
    }
}

impl<K: Eq + Hash + Drop, W: Wake> FairShare<K, W, BuildHasherDefault<FoldHasher>> {
    ghost use Rattle.std.specs.Prelude.{◌<◌};

    /// An admission with these permits, all of them free. It takes no memory.
    pub fn new(alloc: Global, permits: usize) -> Self
        requires { 0 < permits }
    {
        FairShare::with_hasher(alloc, permits, BuildHasherDefault::new())
    }
}

impl<K: Eq + Hash + Drop, W: Wake, S: BuildHasher + Drop> FairShare<K, W, S> {
    ghost use Rattle.std.specs.Prelude.{◌≡◌, ◌<◌, IfOk, IfSome};

    /// `new` with a hasher of the caller's. It takes no memory.
    pub fn with_hasher(alloc: Global, permits: usize, hasher: S) -> Self
        requires { 0 < permits }
    {
        FairShare {
            alloc,
            core: Mutex::new(FairCore::with_hasher(alloc, permits, hasher)),
        }
    }

    /// The permits that were free a moment ago. It takes no memory.
    pub fn available_permits<R: Wait>(&self, rt: &R) -> usize {
        self.core.lock(rt).available_permits()
    }

    /// How many waited a moment ago and had no permit yet. It takes no memory.
    pub fn num_waiters<R: Wait>(&self, rt: &R) -> usize {
        self.core.lock(rt).num_waiters()
    }

    /// A permit of the key, if one is free, which it is only while nobody waits. It takes memory to share the key, and for
    /// what is kept of a key that holds or waits; where there is none nothing has changed.
    pub fn try_acquire<R: Wait>(
        &self,
        rt: &R,
        key: K,
    ) -> Result<Option<FairSharePermit<'_, K, W, S>>, NoMemory>
        ensures { IfOk result (λ taken. IfSome taken (λ permit. permit ≡ key)) }
    {
        match self.take(rt, key)? {
            Some(key) => Ok(Some(SharePermit::of(self, key))),
            None => Ok(None),
        }
    }

    /// A wait for a permit of the key. It takes no lock before its first poll, and memory to share the key.
    pub fn acquire(&self, key: K) -> Result<ShareWait<'_, K, W, S>, NoMemory>
        ensures { IfOk result (λ wait. wait ≡ key) }
    {
        Admission::of(self, self.alloc, key)
    }

    /// `try_acquire`, for a permit that owns a share of the admission. It takes memory as that does.
    pub fn try_acquire_owned<R: Wait>(
        self: Arc<Self>,
        rt: &R,
        key: K,
    ) -> Result<Option<OwnedFairSharePermit<K, W, S>>, NoMemory>
        ensures { IfOk result (λ taken. IfSome taken (λ permit. permit ≡ key)) }
    {
        match self.take(rt, key)? {
            Some(key) => Ok(Some(SharePermit::of(self, key))),
            None => Ok(None),
        }
    }

    /// `acquire`, for a wait that owns a share of the admission. It takes memory as that does.
    pub fn acquire_owned(self: Arc<Self>, key: K) -> Result<OwnedShareWait<K, W, S>, NoMemory>
        ensures { IfOk result (λ wait. wait ≡ key) }
    {
        let alloc = self.alloc;
        Admission::of(self, alloc, key)
    }

    /// Sets the weight of a key, which stays until it is set again: a key of weight 2 may hold twice as much before it
    /// stands back. It admits nobody. It takes memory to share the key and to keep its weight.
    pub fn set_weight<R: Wait>(&self, rt: &R, key: K, weight: NonZeroU64) -> Result<(), NoMemory> {
        let key = shared(self.alloc, key)?;
        self.core.lock(rt).set_weight(&key, weight.get())
    }

    /// The weight of a key, which is 1 until it is set. It takes memory to share the key.
    pub fn weight<R: Wait>(&self, rt: &R, key: K) -> Result<u64, NoMemory> {
        let key = shared(self.alloc, key)?;
        Ok(self.core.lock(rt).weight(&key))
    }

    // Takes a permit of a key, and hands out the key where it did.
    fn take<R: Wait>(&self, rt: &R, key: K) -> Result<Option<SharedKey<K>>, NoMemory>
        ensures { IfOk result (λ taken. IfSome taken (λ shared. shared ≡ key)) }
    {
        let key = shared(self.alloc, key)?;
        let taken = self.core.lock(rt).try_acquire(&key)?;
        if taken { Ok(Some(key)) } else { Ok(None) }
    }

    // Gives a permit of a key back, and wakes whom that admits.
    fn give_back<R: Wait>(&self, rt: &R, key: &SharedKey<K>) {
        let made = steps::release(&mut *self.core.lock(rt), key);
        self.wake(rt, made);
    }

    // Wakes as many as the step before has made ready.
    fn wake<R: Wait>(&self, rt: &R, made: usize) {
        hand_out(made, || self.core.lock(rt).next_wake());
    }
}

// Shares a key; it is dropped where there is no memory.
fn shared<K: Drop>(alloc: Global, key: K) -> Result<SharedKey<K>, NoMemory>
    ensures { IfOk result (λ shared. shared ≡ key) }
{
    match SharedKey::new(alloc, key) {
        Ok(shared) => Ok(shared),
        Err(_) => Err(NoMemory),
    }
}
