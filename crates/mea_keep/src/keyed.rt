//! Calls by key, of a map and of a group alike: a lock round their core, and the waits and claims of their calls.
mod claiming;
mod filling;
mod keyed_core;
mod steps;

use crate::computed::Computed;
pub use claiming::{KeyClaim, KeyClaiming};
pub use filling::KeyFilling;
pub use keyed_core::KeyedCore;
use mea_base::{NoMemory, Wake};
use mea_wait::hand_out;
use std::alloc::Global;
use std::hash::Hash;
use std::sync::{Mutex, Wait};

/// A core of calls by key, behind its lock.
///
/// While the lock is held there run the hash, the equality and the drop of keys, and nothing else of the caller's: values
/// are kept behind an `Arc`, of which the core hands out a share, and are computed, cloned and dropped with no lock held.
#[derive(Drop)]
pub struct Keyed<C> {
    pub(crate) alloc: Global,
    pub(crate) core: Mutex<C>,
}

impl<C> Keyed<C> {
    // A core behind a lock.
    pub(crate) fn of(alloc: Global, core: C) -> Self {
        Keyed {
            alloc,
            core: Mutex::new(core),
        }
    }

    // Wakes as many as the step before has made ready.
    pub(crate) fn wake<R: Wait, K: Eq + Hash, V, W: Wake>(&self, rt: &R, made: usize)
    where
        C: KeyedCore<K, V, W>,
    {
        hand_out(made, || self.core.lock(rt).next_wake()?);
    }
}

// A clone of a value that is kept.
pub(crate) fn clone_of<V: Clone + Drop>(kept: &Computed<V>) -> Result<V, NoMemory> {
    Ok(kept.get().clone()?)
}
