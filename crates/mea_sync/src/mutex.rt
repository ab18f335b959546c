//! A mutex that threads and tasks share: `mea::mutex`.
mod guard;
mod locking;
mod steps;

use crate::made::Made;
pub use crate::mapped::Mapped;
pub use guard::{LockGuard, MappedMutexGuard, MutexGuard, OwnedMappedMutexGuard, OwnedMutexGuard};
pub use locking::{Lock, Locking, OwnedLock};
use mea_base::Wake;
use std::alloc::Global;
use std::sync;
use std::sync::{Arc, Wait};
pub(crate) use steps::MutexState;

/// A value that one thread or task at a time may use, in the order in which they first polled for it.
///
/// The value moves into the guard and back, so that a guard may be held between polls and sent to another
/// thread; a large value is best boxed. It ports `mea::mutex::Mutex`.
pub struct Mutex<T, W> {
    pub(crate) core: sync::Mutex<MutexState<T, W>>,
}

// Written out: a derived one is proved anew in each crate that hands a value of this type to a generic function.
impl<T: Drop, W: Drop> Drop for Mutex<T, W> {
    fn drop(self) {
        let Mutex { core: _ } = self;
    }
}

impl<T: Drop, W: Wake> Mutex<T, W> {
    /// A mutex that nobody holds. It takes no memory.
    pub fn new(alloc: Global, value: T) -> Self {
        Mutex {
            core: sync::Mutex::new(MutexState::new(alloc, value)),
        }
    }

    /// The value, which leaves the mutex. It is None only while a guard has it, and a guard borrows the mutex
    /// or owns a share of it; no clause can say so. It takes no memory.
    pub fn into_inner(self) -> Option<T> {
        let Mutex { core } = self;
        core.into_inner().into_value()
    }

    /// The value for writing, for who has the whole mutex: as `into_inner`. It takes no memory.
    pub fn get_mut(&mut self) -> Option<&mut T> {
        self.core.get_mut().value_mut()
    }

    /// A wait for the lock. It takes no lock before its first poll, and no memory.
    pub fn lock(&self) -> Lock<'_, T, W> {
        Locking::of(self)
    }

    /// `lock`, for a wait that owns a share of the mutex. It takes no memory.
    pub fn lock_owned(self: Arc<Self>) -> OwnedLock<T, W> {
        Locking::of(self)
    }

    /// The guard, if the lock is free: nobody holds it, and it is granted to nobody who waits. It takes no memory.
    pub fn try_lock<R: Wait>(&self, rt: &R) -> Option<MutexGuard<'_, T, W>> {
        let taken = self.core.lock(rt).try_lock();
        match taken {
            Some(value) => Some(LockGuard::of(self, value)),
            None => None,
        }
    }

    /// `try_lock`, for a guard that owns a share of the mutex. It takes no memory.
    pub fn try_lock_owned<R: Wait>(self: Arc<Self>, rt: &R) -> Option<OwnedMutexGuard<T, W>> {
        let taken = self.core.lock(rt).try_lock();
        match taken {
            Some(value) => Some(LockGuard::of(self, value)),
            None => None,
        }
    }

    // Puts the value of a guard back, and wakes who has the lock next.
    pub(crate) fn put_back<R: Wait>(&self, rt: &R, value: T) {
        let made = {
            let mut state = self.core.lock(rt);
            let made = state.put_back(value);
            Made::of(made, || state.next_wake())
        };
        self.wake(rt, made);
    }

    // Wakes those whom the step before has made ready.
    pub(crate) fn wake<R: Wait>(&self, rt: &R, made: Made<W>) {
        made.hand_out(|| self.core.lock(rt).next_wake());
    }
}
