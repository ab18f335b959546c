ghost use Rattle.std.specs.Prelude.{◌≡◌, refl, IfOk, IfErr};
ghost use Rattle.std.specs.Arc.{arc_value};
ghost use Rattle.std.specs.Borrow.{Lends, sem};

use crate::access::{Access, Downgrades, Shows};
use crate::made::Made;
use crate::mapped::Mapped;
use crate::rwlock::RwLock;
use mea_base::{NoMemory, Wake};
use mea_wait::{End, Holds};
use std::marker::PhantomData;
use std::ops::{Deref, DerefMut};
use std::sync::{Arc, Wait};

/// A read of a value, which others may read beside. It must be ended. It may be held between polls, and sent
/// to another thread.
pub struct ReadGuard<H, T, W> {
    of: H,
    value: Arc<T>,
    waker: PhantomData<W>,
}

/// A write of a value, which nobody else uses meanwhile. It must be ended. It may be held between polls, and
/// sent to another thread.
pub struct WriteGuard<H, T, W> {
    of: H,
    value: T,
    waker: PhantomData<W>,
}

/// A read that borrows its lock. It ports `mea::rwlock::RwLockReadGuard`.
pub type RwLockReadGuard<'a, T, W> = ReadGuard<&'a RwLock<T, W>, T, W>;

/// A read that owns a share of its lock. It ports `mea::rwlock::OwnedRwLockReadGuard`.
pub type OwnedRwLockReadGuard<T, W> = ReadGuard<Arc<RwLock<T, W>>, T, W>;

/// A write that borrows its lock. It ports `mea::rwlock::RwLockWriteGuard`.
pub type RwLockWriteGuard<'a, T, W> = WriteGuard<&'a RwLock<T, W>, T, W>;

/// A write that owns a share of its lock. It ports `mea::rwlock::OwnedRwLockWriteGuard`.
pub type OwnedRwLockWriteGuard<T, W> = WriteGuard<Arc<RwLock<T, W>>, T, W>;

/// A `RwLockReadGuard` that shows a part of the value. It ports `mea::rwlock::MappedRwLockReadGuard`.
pub type MappedRwLockReadGuard<'a, T, P, W> = Mapped<T, RwLockReadGuard<'a, T, W>, P>;

/// An `OwnedRwLockReadGuard` that shows a part of the value. It ports `mea::rwlock::OwnedMappedRwLockReadGuard`.
pub type OwnedMappedRwLockReadGuard<T, P, W> = Mapped<T, OwnedRwLockReadGuard<T, W>, P>;

/// A `RwLockWriteGuard` that shows a part of the value. It ports `mea::rwlock::MappedRwLockWriteGuard`.
pub type MappedRwLockWriteGuard<'a, T, P, W> = Mapped<T, RwLockWriteGuard<'a, T, W>, P>;

/// An `OwnedRwLockWriteGuard` that shows a part of the value. It ports
/// `mea::rwlock::OwnedMappedRwLockWriteGuard`.
pub type OwnedMappedRwLockWriteGuard<T, P, W> = Mapped<T, OwnedRwLockWriteGuard<T, W>, P>;

impl<T: Drop, W: Wake, H: Holds<RwLock<T, W>>> ReadGuard<H, T, W> {
    // The guard of a read that was just let in.
    pub(super) fn of(of: H, value: Arc<T>) -> Self
        ensures value { result.value ≡ value }
    {
        ReadGuard {
            of,
            value,
            waker: PhantomData,
        }
    }
}

impl<T: Drop, W: Wake, H: Holds<RwLock<T, W>>> WriteGuard<H, T, W> {
    // The guard of a write that was just let in.
    pub(super) fn of(of: H, value: T) -> Self
        ensures value { result.value ≡ value }
    {
        WriteGuard {
            of,
            value,
            waker: PhantomData,
        }
    }

    /// Makes the write a read of the same value, in one step: no other write is let in before. To share the
    /// value takes memory, and where there is none the write comes back.
    pub fn downgrade<R: Wait>(self, rt: &R) -> Result<ReadGuard<H, T, W>, (Self, NoMemory)>
        ensures shared { IfOk result (λ guard. arc_value guard.value ≡ self.value) }
        ensures err { IfErr result (λ e. e.0.value ≡ self.value) }
    {
        let WriteGuard {
            of,
            value,
            waker: _,
        } = self;
        let alloc = of.held().core.lock(rt).alloc();
        let shared = match Arc::new(alloc, value) {
            Ok(shared) => shared,
            Err(refused) => return Err((WriteGuard::of(of, refused.value), NoMemory)),
        };
        let other = share(rt, &shared);
        let made = {
            let mut state = of.held().core.lock(rt);
            let made = state.downgrade(other);
            Made::of(made, || state.next_wake())
        };
        of.held().wake(rt, made);
        Ok(ReadGuard::of(of, shared))
    }
}

// A further share of the value. It is refused only where as many shares are out as can be counted, and then
// it is tried again until some have gone.
fn share<R: Wait, T>(rt: &R, value: &Arc<T>) -> Arc<T>
    ensures { arc_value result ≡ arc_value value.now }
{
    for _ in rt.forever() {
        if let Ok(shared) = Arc::try_clone(value) {
            return shared;
        }
    }
    unreachable!()
}

impl<H, T, W> Shows<T> for ReadGuard<H, T, W> {
    ghost shown = { λ guard. arc_value guard.value };

    fn show(&self) -> &T {
        &*self.value
    }
}

impl<H, T, W> Shows<T> for WriteGuard<H, T, W> {
    ghost shown = { λ guard. guard.value };

    fn show(&self) -> &T {
        &self.value
    }
}

impl<H, T, W> Access<T> for WriteGuard<H, T, W> {
    ghost with = { λ guard value. record guard { value = value } };

    fn show_mut(&mut self) -> &mut T {
        &mut self.value
    }

    ghost holds = { λ guard value. refl };
}

impl<T: Drop, W: Wake, H: Holds<RwLock<T, W>>> Downgrades<T> for WriteGuard<H, T, W> {
    type Read = ReadGuard<H, T, W>;

    fn downgrade<R: Wait>(self, rt: &R) -> Result<ReadGuard<H, T, W>, (Self, NoMemory)> {
        WriteGuard::downgrade(self, rt)
    }
}

impl<H, T, W> Deref for ReadGuard<H, T, W> {
    type Target = T;

    ghost deref_gives = { λ guard value. value ≡ arc_value guard.value };

    fn deref(&self) -> &T {
        &*self.value
    }
}

impl<H, T, W> Deref for WriteGuard<H, T, W> {
    type Target = T;

    ghost deref_gives = { λ guard value. value ≡ guard.value };

    fn deref(&self) -> &T {
        &self.value
    }
}

impl<H, T, W> DerefMut for WriteGuard<H, T, W> {
    ghost use Rattle.mea_sync.specs.contracts.rwlock.guards.WriteGuard.{the_row};

    ghost deref_mut_gives = { λ guard value. value ≡ guard.value };

    fn deref_mut(&mut self) -> &mut T
        ensures* writes_back { sem 𝓛 (Lends (the_row H.row T.row W.row) T.row self.entry result (λ y. record self.old { value = y })) }
        ensures value { result.now ≡ self.old.value }
    {
        &mut self.value
    }
}

impl<T: Drop, W: Wake, H: Holds<RwLock<T, W>>> End for ReadGuard<H, T, W> {
    fn end<R: Wait>(self, rt: &R) {
        let ReadGuard {
            of,
            value,
            waker: _,
        } = self;
        let lock = of.held();
        let made = {
            let mut state = lock.core.lock(rt);
            let made = state.end_read(value);
            Made::of(made, || state.next_wake())
        };
        lock.wake(rt, made);
    }
}

impl<T: Drop, W: Wake, H: Holds<RwLock<T, W>>> End for WriteGuard<H, T, W> {
    fn end<R: Wait>(self, rt: &R) {
        let WriteGuard {
            of,
            value,
            waker: _,
        } = self;
        let lock = of.held();
        let made = {
            let mut state = lock.core.lock(rt);
            let made = state.end_write(value);
            Made::of(made, || state.next_wake())
        };
        lock.wake(rt, made);
    }
}
