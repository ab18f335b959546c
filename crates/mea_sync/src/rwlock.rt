//! A reader-writer lock that threads and tasks share: `mea::rwlock`.
mod guards;
mod slot;
mod steps;
mod waits;

use crate::made::Made;
pub use crate::mapped::Mapped;
pub use guards::{
    MappedRwLockReadGuard, MappedRwLockWriteGuard, OwnedMappedRwLockReadGuard,
    OwnedMappedRwLockWriteGuard, OwnedRwLockReadGuard, OwnedRwLockWriteGuard, ReadGuard,
    RwLockReadGuard, RwLockWriteGuard, WriteGuard,
};
use mea_base::{NoMemory, Wake};
use mea_lock_core::RwWait;
use std::alloc::Global;
use std::num::NonZeroUsize;
use std::sync::{Arc, Mutex, Wait};
use steps::RwLockState;
pub use waits::{OwnedRead, OwnedWrite, Read, Reading, Write, Writing};

/// The readers at most of a lock that names no number.
const MAX_READERS: usize = 9223372036854775807;

/// A value that several threads and tasks may read at a time, or one may write, in the order in which they
/// first polled for it.
///
/// The value moves into the guard of a write and back; those who read share it, for which the first to read
/// after a write takes memory. So each guard may be held between polls and sent to another thread. It ports
/// `mea::rwlock::RwLock`.
pub struct RwLock<T, W> {
    core: Mutex<RwLockState<T, W>>,
}

// Written out: a derived one is proved anew in each crate that hands a value of this type to a generic function.
impl<T: Drop, W: Drop> Drop for RwLock<T, W> {
    fn drop(self) {
        let RwLock { core: _ } = self;
    }
}

impl<T: Drop, W: Wake> RwLock<T, W> {
    /// A lock that nobody holds, for at most 9223372036854775807 readers at a time. It takes no memory.
    pub fn new(alloc: Global, value: T) -> Self {
        RwLock {
            core: Mutex::new(RwLockState::new(alloc, value, MAX_READERS)),
        }
    }

    /// A lock that nobody holds, for at most so many readers at a time. It takes no memory.
    pub fn with_max_readers(alloc: Global, value: T, max_readers: NonZeroUsize) -> Self {
        RwLock {
            core: Mutex::new(RwLockState::new(alloc, value, max_readers.get())),
        }
    }

    /// The value, which leaves the lock. It is None only while a guard has it, and a guard borrows the lock
    /// or owns a share of it; no clause can say so. It takes no memory.
    pub fn into_inner(self) -> Option<T> {
        let RwLock { core } = self;
        core.into_inner().into_value()
    }

    /// The value for writing, for who has the whole lock. It is None only while a guard has it or a share of it, as for
    /// `into_inner`. It takes no memory.
    pub fn get_mut(&mut self) -> Option<&mut T> {
        self.core.get_mut().value_mut()
    }

    /// A wait for a read. It takes no lock before its first poll, and no memory.
    pub fn read(&self) -> Read<'_, T, W> {
        Reading::of(self)
    }

    /// A wait for a write. It takes no lock before its first poll, and no memory.
    pub fn write(&self) -> Write<'_, T, W> {
        Writing::of(self)
    }

    /// `read`, for a wait that owns a share of the lock. It takes no memory.
    pub fn read_owned(self: Arc<Self>) -> OwnedRead<T, W> {
        Reading::of(self)
    }

    /// `write`, for a wait that owns a share of the lock. It takes no memory.
    pub fn write_owned(self: Arc<Self>) -> OwnedWrite<T, W> {
        Writing::of(self)
    }

    /// The guard of a read, if a permit for one is free. The first to read after a write takes memory, and
    /// where there is none nothing has changed.
    pub fn try_read<R: Wait>(&self, rt: &R) -> Result<Option<RwLockReadGuard<'_, T, W>>, NoMemory> {
        let taken = self.core.lock(rt).try_read()?;
        match taken {
            Some(value) => Ok(Some(ReadGuard::of(self, value))),
            None => Ok(None),
        }
    }

    /// The guard of a write, if the lock is free: nobody holds it, and it is granted to nobody who waits. It takes no memory.
    pub fn try_write<R: Wait>(&self, rt: &R) -> Option<RwLockWriteGuard<'_, T, W>> {
        match self.take(rt) {
            Some(value) => Some(WriteGuard::of(self, value)),
            None => None,
        }
    }

    /// `try_read`, for a guard that owns a share of the lock. It may take memory as that does.
    pub fn try_read_owned<R: Wait>(
        self: Arc<Self>,
        rt: &R,
    ) -> Result<Option<OwnedRwLockReadGuard<T, W>>, NoMemory> {
        let taken = self.core.lock(rt).try_read()?;
        match taken {
            Some(value) => Ok(Some(ReadGuard::of(self, value))),
            None => Ok(None),
        }
    }

    /// `try_write`, for a guard that owns a share of the lock. It takes no memory.
    pub fn try_write_owned<R: Wait>(
        self: Arc<Self>,
        rt: &R,
    ) -> Option<OwnedRwLockWriteGuard<T, W>> {
        match self.take(rt) {
            Some(value) => Some(WriteGuard::of(self, value)),
            None => None,
        }
    }

    // Takes the value, if nobody holds the lock.
    fn take<R: Wait>(&self, rt: &R) -> Option<T> {
        let (taken, made) = {
            let mut state = self.core.lock(rt);
            let (taken, made) = state.try_write();
            (taken, Made::of(made, || state.next_wake()))
        };
        self.wake(rt, made);
        taken
    }

    // Ends a wait, and wakes those whom what it was paid pays.
    fn cancel<R: Wait>(&self, rt: &R, wait: RwWait) {
        let made = {
            let mut state = self.core.lock(rt);
            let made = state.cancel(wait);
            Made::of(made, || state.next_wake())
        };
        self.wake(rt, made);
    }

    // Wakes those whom the step before has made ready.
    fn wake<R: Wait>(&self, rt: &R, made: Made<W>) {
        made.hand_out(|| self.core.lock(rt).next_wake());
    }
}
