ghost use Rattle.std.specs.Prelude.{◌≡◌, true, IsSome, IfSome};
ghost use Rattle.mea_lock_core.specs.CondWaits.{is_new};
ghost use Rattle.mea_wait.specs.Polls.{IsPollable, IsRefusedFor};

use crate::condvar::{Condvar, steps};
use crate::made::Made;
use crate::mutex::{LockGuard, Mutex};
use mea_base::{NoMemory, Wake};
use mea_lock_core::CondWait;
use mea_wait::{End, Holds, PollFault, Polled, Unpolled, Waits};
use std::marker::PhantomData;
use std::sync::{Arc, Wait};

/// A wait to be notified, which gives the guard that it has taken over. It must be polled to its end, or
/// ended. Once notified it is pending while anyone has the lock, its own task among them.
pub struct Notified<'a, H, T, W> {
    of: &'a Condvar<W>,
    mutex: H,
    wait: CondWait,
    // The value, while the guard is still its own.
    guarded: Option<T>,
    ghost guards: { is_new wait ≡ true → IsSome guarded },
}

/// A wait that goes on while a condition holds of the value, and then gives the guard. It must be polled to
/// its end, or ended.
pub struct Conditional<'a, H, T, F, W> {
    of: &'a Condvar<W>,
    stage: CondvarWaitStage<'a, H, T, W>,
    condition: F,
}

// What a wait with a condition does next.
enum CondvarWaitStage<'a, H, T, W> {
    // It asks the condition, of the value that it has.
    Asks(LockGuard<H, T, W>),
    // It waits to be notified.
    Waits(Notified<'a, H, T, W>),
}

// What one poll of a wait came to, with the waker where it was not kept.
enum Step<'a, H, T, W> {
    Ready(LockGuard<H, T, W>, W),
    Pending(Notified<'a, H, T, W>),
    Refused(Notified<'a, H, T, W>, W),
}

/// The future of `Condvar::wait`.
pub type CondvarWait<'a, T, W> = Notified<'a, &'a Mutex<T, W>, T, W>;

/// The future of `Condvar::wait_owned`.
pub type CondvarWaitOwned<'a, T, W> = Notified<'a, Arc<Mutex<T, W>>, T, W>;

/// The future of `Condvar::wait_while`.
pub type CondvarWhile<'a, T, F, W> = Conditional<'a, &'a Mutex<T, W>, T, F, W>;

/// The future of `Condvar::wait_while_owned`.
pub type CondvarWhileOwned<'a, T, F, W> = Conditional<'a, Arc<Mutex<T, W>>, T, F, W>;

impl<'a, T: Drop, W: Wake, H: Holds<Mutex<T, W>>> Notified<'a, H, T, W> {
    ghost use Rattle.mea_sync.specs.Stepped.{HandsWakerBack};

    // A wait that was never polled, and has the guard.
    pub(super) fn of(of: &'a Condvar<W>, guard: LockGuard<H, T, W>) -> Self {
        let (mutex, value) = guard.into_parts();
        Notified {
            of,
            mutex,
            wait: CondWait::new(),
            guarded: Some(value),
        }
    }

    // The guard of one that has it still.
    fn into_guard(self) -> Result<LockGuard<H, T, W>, Self> {
        let Notified {
            of,
            mutex,
            wait,
            guarded,
        } = self;
        match guarded {
            Some(value) => Ok(LockGuard::of(mutex, value)),
            None => Err(Notified {
                of,
                mutex,
                wait,
                guarded: None,
            }),
        }
    }

    // Polls it once.
    fn step<R: Wait>(self, rt: &R, waker: W) -> Step<'a, H, T, W>
        ensures { HandsWakerBack waker result }
    {
        let Notified {
            of,
            mutex,
            mut wait,
            mut guarded,
        } = self;
        let (answer, made) = {
            let mut state = mutex.held().core.lock(rt);
            let mut core = of.core.lock(rt);
            let polled = steps::poll(&mut *state, &mut *core, &mut wait, &mut guarded, waker);
            (polled.answer, Made::of(polled.made, || state.next_wake()))
        };
        mutex.held().wake(rt, made);
        match answer {
            Ok(Some((value, waker))) => Step::Ready(LockGuard::of(mutex, value), waker),
            Ok(None) => Step::Pending(Notified {
                of,
                mutex,
                wait,
                guarded,
            }),
            Err((waker, NoMemory)) => {
                let refused = Notified {
                    of,
                    mutex,
                    wait,
                    guarded,
                };
                Step::Refused(refused, waker)
            }
        }
    }
}

impl<'a, T: Drop, W: Wake, H: Holds<Mutex<T, W>>> End for Notified<'a, H, T, W> {
    fn end<R: Wait>(self, rt: &R) {
        let Notified {
            of,
            mutex,
            wait,
            guarded,
        } = self;
        let held = mutex.held();
        let (locked, noted) = {
            let mut state = held.core.lock(rt);
            let mut core = of.core.lock(rt);
            let (locked, noted) = steps::end(&mut *state, &mut *core, wait, guarded);
            (
                Made::of(locked, || state.next_wake()),
                Made::of(noted, || core.next_wake()),
            )
        };
        held.wake(rt, locked);
        of.wake(rt, noted);
    }
}

impl<'a, T: Drop, W: Wake, H: Holds<Mutex<T, W>>> Waits<W, LockGuard<H, T, W>>
    for Notified<'a, H, T, W> {
    ghost hands_back = { λ given back. back ≡ given };

    fn poll<R: Wait>(
        self,
        rt: &R,
        waker: W,
    ) -> Result<Polled<Self, LockGuard<H, T, W>>, Unpolled<Self, W>> {
        match self.step(rt, waker) {
            Step::Ready(guard, _) => Ok(Polled::Ready(guard)),
            Step::Pending(wait) => Ok(Polled::Pending(wait)),
            Step::Refused(wait, waker) => Err(Unpolled::no_memory(wait, waker)),
        }
    }
}

impl<'a, T: Drop, F: FnMut(&mut T) -> bool + Drop, W: Wake, H: Holds<Mutex<T, W>>> Conditional<
    'a,
    H,
    T,
    F,
    W,
> {
    // A wait that was never polled, and has the guard.
    pub(super) fn of(of: &'a Condvar<W>, guard: LockGuard<H, T, W>, condition: F) -> Self
        ensures { result.condition ≡ condition }
    {
        Conditional {
            of,
            stage: CondvarWaitStage::Asks(guard),
            condition,
        }
    }

    // Asks the condition with the lock held: the wait is ready where it does not hold, and else waits anew.
    fn ask<R: Wait>(
        rt: &R,
        of: &'a Condvar<W>,
        guard: LockGuard<H, T, W>,
        condition: F,
        waker: W,
    ) -> Result<Polled<Self, LockGuard<H, T, W>>, Unpolled<Self, W>>
        requires { F.IsAlwaysCallable condition }
        ensures again { IsPollable (λ w. F.IsAlwaysCallable w.condition) result }
        ensures fault { IsRefusedFor (λ fault. fault ≡ PollFault.NoMemory) result }
    {
        let mut guard = guard;
        let mut condition = condition;
        if !condition(&mut *guard) {
            return Ok(Polled::Ready(guard));
        }
        let stage = match Notified::of(of, guard).step(rt, waker) {
            Step::Pending(wait) => CondvarWaitStage::Waits(wait),
            // No first poll is ready. Were one, its task would be told to ask again.
            Step::Ready(guard, waker) => {
                waker.wake();
                CondvarWaitStage::Asks(guard)
            }
            Step::Refused(wait, waker) => {
                let stage = match wait.into_guard() {
                    Ok(guard) => CondvarWaitStage::Asks(guard),
                    Err(wait) => CondvarWaitStage::Waits(wait),
                };
                let refused = Conditional {
                    of,
                    stage,
                    condition,
                };
                return Err(Unpolled::no_memory(refused, waker));
            }
        };
        Ok(Polled::Pending(Conditional {
            of,
            stage,
            condition,
        }))
    }
}

impl<'a, T: Drop, F: FnMut(&mut T) -> bool + Drop, W: Wake, H: Holds<Mutex<T, W>>> End
    for Conditional<'a, H, T, F, W> {
    fn end<R: Wait>(self, rt: &R) {
        let Conditional {
            of: _,
            stage,
            condition: _,
        } = self;
        match stage {
            CondvarWaitStage::Asks(guard) => guard.end(rt),
            CondvarWaitStage::Waits(wait) => wait.end(rt),
        }
    }
}

impl<'a, T: Drop, F: FnMut(&mut T) -> bool + Drop, W: Wake, H: Holds<Mutex<T, W>>> Waits<
    W,
    LockGuard<H, T, W>,
> for Conditional<'a, H, T, F, W> {
    ghost can_poll = { λ w. F.IsAlwaysCallable w.condition };

    fn poll<R: Wait>(
        self,
        rt: &R,
        waker: W,
    ) -> Result<Polled<Self, LockGuard<H, T, W>>, Unpolled<Self, W>> {
        let Conditional {
            of,
            stage,
            condition,
        } = self;
        let wait = match stage {
            CondvarWaitStage::Asks(guard) => return Self::ask(rt, of, guard, condition, waker),
            CondvarWaitStage::Waits(wait) => wait,
        };
        match wait.step(rt, waker) {
            Step::Ready(guard, waker) => Self::ask(rt, of, guard, condition, waker),
            Step::Pending(wait) => Ok(Polled::Pending(Conditional {
                of,
                stage: CondvarWaitStage::Waits(wait),
                condition,
            })),
            Step::Refused(wait, waker) => {
                let refused = Conditional {
                    of,
                    stage: CondvarWaitStage::Waits(wait),
                    condition,
                };
                Err(Unpolled::no_memory(refused, waker))
            }
        }
    }
}
