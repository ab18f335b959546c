//! A condition variable that threads and tasks share: `mea::condvar`.
ghost use Rattle.std.specs.Prelude.{◌≡◌};

mod steps;
mod waits;

use crate::made::Made;
use crate::mutex::{MutexGuard, OwnedMutexGuard};
use mea_base::Wake;
use mea_lock_core::CondvarCore;
use std::alloc::Global;
use std::sync::{Mutex, Wait};
pub use waits::{
    Conditional, CondvarWait, CondvarWaitOwned, CondvarWhile, CondvarWhileOwned, Notified,
};

/// Lets those who hold a mutex wait until somebody else tells them to look again.
///
/// A wait takes the guard of a mutex over, gives the lock back at its first poll, and is ready with a guard
/// once it was notified and has the lock again. It ports `mea::condvar::Condvar`.
pub struct Condvar<W> {
    core: Mutex<CondvarCore<W>>,
}

// Written out: a derived one is proved anew in each crate that hands a value of this type to a generic function.
impl<W: Drop> Drop for Condvar<W> {
    fn drop(self) {
        let Condvar { core: _ } = self;
    }
}

impl<W: Wake> Condvar<W> {
    /// A condition variable that nobody waits on. It takes no memory.
    pub fn new(alloc: Global) -> Self {
        Condvar {
            core: Mutex::new(CondvarCore::new(alloc)),
        }
    }

    /// Notifies the first that waits, if any does. It takes no memory.
    pub fn notify_one<R: Wait>(&self, rt: &R) {
        let made = {
            let mut core = self.core.lock(rt);
            let made = steps::notify_one(&mut *core);
            Made::of(made, || core.next_wake())
        };
        self.wake(rt, made);
    }

    /// Notifies each that waits, in their order. It takes no memory.
    pub fn notify_all<R: Wait>(&self, rt: &R) {
        let made = {
            let mut core = self.core.lock(rt);
            let made = steps::notify_all(&mut *core);
            Made::of(made, || core.next_wake())
        };
        self.wake(rt, made);
    }

    /// A wait to be notified, which takes the guard over until its first poll. It takes no memory.
    pub fn wait<'a, T: Drop>(&'a self, guard: MutexGuard<'a, T, W>) -> CondvarWait<'a, T, W> {
        Notified::of(self, guard)
    }

    /// `wait`, with a guard that owns a share of its mutex. It takes no memory.
    pub fn wait_owned<T: Drop>(&self, guard: OwnedMutexGuard<T, W>) -> CondvarWaitOwned<'_, T, W> {
        Notified::of(self, guard)
    }

    /// A wait that goes on while the condition holds of the value. It takes no memory.
    ///
    /// The condition is called with the lock held and the value out of the mutex, so it may call whatever
    /// does not lock the same mutex.
    pub fn wait_while<'a, T: Drop, F: FnMut(&mut T) -> bool + Drop>(
        &'a self,
        guard: MutexGuard<'a, T, W>,
        condition: F,
    ) -> CondvarWhile<'a, T, F, W>
        requires { F.IsAlwaysCallable condition }
        ensures { result.condition ≡ condition }
    {
        Conditional::of(self, guard, condition)
    }

    /// `wait_while`, with a guard that owns a share of its mutex. It takes no memory.
    pub fn wait_while_owned<T: Drop, F: FnMut(&mut T) -> bool + Drop>(
        &self,
        guard: OwnedMutexGuard<T, W>,
        condition: F,
    ) -> CondvarWhileOwned<'_, T, F, W>
        requires { F.IsAlwaysCallable condition }
        ensures { result.condition ≡ condition }
    {
        Conditional::of(self, guard, condition)
    }

    // Wakes those whom the step before has made ready.
    fn wake<R: Wait>(&self, rt: &R, made: Made<W>) {
        made.hand_out(|| self.core.lock(rt).next_wake());
    }
}
