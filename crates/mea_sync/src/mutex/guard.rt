ghost use Rattle.std.specs.Prelude.{◌≡◌, refl};
ghost use Rattle.std.specs.Borrow.{Lends, sem};

use crate::access::{Access, Shows};
use crate::mapped::Mapped;
use crate::mutex::Mutex;
use mea_base::Wake;
use mea_wait::{End, Holds};
use std::marker::PhantomData;
use std::ops::{Deref, DerefMut};
use std::sync::{Arc, Wait};

/// The lock of a mutex and its value. It must be ended. It may be held between polls, and sent to another
/// thread.
pub struct LockGuard<H, T, W> {
    of: H,
    value: T,
    waker: PhantomData<W>,
}

/// A guard that borrows its mutex. It ports `mea::mutex::MutexGuard`.
pub type MutexGuard<'a, T, W> = LockGuard<&'a Mutex<T, W>, T, W>;

/// A guard that owns a share of its mutex. It ports `mea::mutex::OwnedMutexGuard`.
pub type OwnedMutexGuard<T, W> = LockGuard<Arc<Mutex<T, W>>, T, W>;

/// A `MutexGuard` that shows a part of the value. It ports `mea::mutex::MappedMutexGuard`.
pub type MappedMutexGuard<'a, T, P, W> = Mapped<T, MutexGuard<'a, T, W>, P>;

/// An `OwnedMutexGuard` that shows a part of the value. It ports `mea::mutex::OwnedMappedMutexGuard`.
pub type OwnedMappedMutexGuard<T, P, W> = Mapped<T, OwnedMutexGuard<T, W>, P>;

impl<T: Drop, W: Wake, H: Holds<Mutex<T, W>>> LockGuard<H, T, W> {
    // The guard of a lock that was just taken.
    pub(crate) fn of(of: H, value: T) -> Self
        ensures value { result.value ≡ value }
    {
        LockGuard {
            of,
            value,
            waker: PhantomData,
        }
    }

    // What it locks, and the value, which have to be put back.
    pub(crate) fn into_parts(self) -> (H, T)
        ensures value { result.1 ≡ self.value }
    {
        let LockGuard {
            of,
            value,
            waker: _,
        } = self;
        (of, value)
    }
}

impl<H, T, W> Shows<T> for LockGuard<H, T, W> {
    ghost shown = { λ guard. guard.value };

    fn show(&self) -> &T {
        &self.value
    }
}

impl<H, T, W> Access<T> for LockGuard<H, T, W> {
    ghost with = { λ guard value. record guard { value = value } };

    fn show_mut(&mut self) -> &mut T {
        &mut self.value
    }

    ghost holds = { λ guard value. refl };
}

impl<H, T, W> Deref for LockGuard<H, T, W> {
    type Target = T;

    ghost deref_gives = { λ guard value. value ≡ guard.value };

    fn deref(&self) -> &T {
        &self.value
    }
}

impl<H, T, W> DerefMut for LockGuard<H, T, W> {
    ghost use Rattle.mea_sync.specs.contracts.mutex.guard.LockGuard.{the_row};

    ghost deref_mut_gives = { λ guard value. value ≡ guard.value };

    fn deref_mut(&mut self) -> &mut T
        ensures* writes_back { sem 𝓛 (Lends (the_row H.row T.row W.row) T.row self.entry result (λ y. record self.old { value = y })) }
        ensures value { result.now ≡ self.old.value }
    {
        &mut self.value
    }
}

impl<T: Drop, W: Wake, H: Holds<Mutex<T, W>>> End for LockGuard<H, T, W> {
    fn end<R: Wait>(self, rt: &R) {
        let (of, value) = self.into_parts();
        of.held().put_back(rt, value);
    }
}
