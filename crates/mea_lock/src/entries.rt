ghost use Rattle.std.specs.Prelude.{ℕ, ◌≡◌, ◌+◌, ◌-◌, ◌<◌, ◌≤◌, ◌^◌, ◌++◌, ◌||◌, [], nat_lt, length, map, cond, true, false, not, IfOk, OnErr};
ghost use Rattle.mea_lock_core.specs.RwLock.{MayPoll, MayCancel, share_of, is_write};
ghost use Rattle.mea_lock.specs.Cores.{NamedLock, CancelsLock, TakesLock, UnlocksLock, LowersLock, IsHeldAs, keeps_out};
ghost use Rattle.mea_lock.specs.Waits.{IsNewWait};

use crate::guard_entry::GuardEntry;
use crate::lock_core::{LockCore, LoweredCore};
use crate::until::{Asked, goes_on};
use mea_base::{NoMemory, Ready, Turn};
use mea_by_name::NamedWaker;
use mea_family::one_if;
use mea_lock_model::Until;
use std::marker::Model;

/// What a hall keeps of a lock. Only its polls take memory.
#[derive(Drop)]
pub struct LockEntry<C: LockCore> {
    core: C,
    named: bool,
    // How many futures and guards it has, and how many of them are plain.
    things: u128,
    plain: u128,
}

impl<C: LockCore> Model for LockEntry<C> {
    ghost use Rattle.mea_lock.specs.Entries.{KeptLock, kept_lock_code};

    ghost Value = { KeptLock };

    ghost coded = { kept_lock_code };

    ghost view = { λ e. record { lock = C.lock_of e.core; named = e.named; things = e.things; plain = e.plain } };
}

/// What a hall keeps of a future.
#[derive(Drop)]
pub struct FutureEntry<C: LockCore> {
    lock: u64,
    plain: bool,
    wait: C::Wait,
    // Whether it is that of a wait on a condition variable, and whether it holds the lock.
    of_condvar: bool,
    holds: bool,
}

impl<C: LockCore> Model for FutureEntry<C> {
    ghost use Rattle.mea_lock.specs.Entries.{KeptFuture};

    ghost Value = { KeptFuture };

    ghost view = { λ x. record { lock = x.lock; plain = x.plain; wait = C.wait_of x.wait; of_condvar = x.of_condvar; holds = x.holds } };
}

impl<C: LockCore> FutureEntry<C> {
    /// The name of its lock.
    pub fn lock(&self) -> u64
        ensures { result ≡ self.now.lock }
    {
        self.lock
    }

    /// Whether it borrows its lock.
    pub fn is_plain(&self) -> bool
        ensures { result ≡ self.now.plain }
    {
        self.plain
    }

    /// Whether it is that of a wait on a condition variable.
    pub fn is_of_condvar(&self) -> bool
        ensures { result ≡ self.now.of_condvar }
    {
        self.of_condvar
    }

    /// The guard that it becomes.
    pub fn guard(&self) -> GuardEntry
        ensures { result ≡ record { lock = self.now.lock; plain = self.now.plain; writes = is_write self.now.wait } }
    {
        GuardEntry {
            lock: self.lock,
            plain: self.plain,
            writes: C::writes(&self.wait),
        }
    }
}

impl<C: LockCore> LockEntry<C> {
    ghost use Rattle.mea_lock.specs.Entries.{begun, finished, settled, is_over, Settles, EndsLock, Polled, Asks, PolledUntil};

    /// A lock that is named and has nothing.
    pub fn new(core: C) -> Self
        ensures { result ≡ record { lock = C.lock_of core; named = true; things = 0; plain = 0 } }
    {
        LockEntry {
            core,
            named: true,
            things: 0,
            plain: 0,
        }
    }

    /// Its core.
    pub fn core(&self) -> &C
        ensures { C.lock_of result.now ≡ self.now.lock }
    {
        &self.core
    }

    /// Whether it has its name.
    pub fn is_named(&self) -> bool
        ensures { result ≡ self.now.named }
    {
        self.named
    }

    /// A future of it, which is named `lock`, to read or to write.
    pub fn new_future(&self, lock: u64, plain: bool, write: bool) -> FutureEntry<C>
        requires { C.is_only_written ≡ true → write ≡ true }
        ensures future { result ≡ record { lock = lock; plain = plain; wait = result.wait; of_condvar = false; holds = false } }
        ensures wait { IsNewWait self.now.lock write result.wait }
    {
        FutureEntry {
            lock,
            plain,
            wait: self.core.new_wait(write),
            of_condvar: false,
            holds: false,
        }
    }

    /// The future of a wait on a condition variable, which holds the lock.
    pub fn holder(&self, lock: u64, plain: bool) -> FutureEntry<C>
        ensures future { result ≡ record { lock = lock; plain = plain; wait = result.wait; of_condvar = true; holds = true } }
        ensures wait { IsNewWait self.now.lock true result.wait }
    {
        FutureEntry {
            lock,
            plain,
            wait: self.core.new_wait(true),
            of_condvar: true,
            holds: true,
        }
    }

    /// Ends its name.
    pub fn unname(&mut self)
        ensures { self.new ≡ record self.old { named = false } }
    {
        self.named = false;
    }

    /// Whether it has a future or a guard.
    pub fn has_things(&self) -> bool
        ensures { result ≡ nat_lt 0 self.now.things }
    {
        self.things > 0
    }

    /// Whether it has a plain future or guard.
    pub fn has_plain(&self) -> bool
        ensures { result ≡ nat_lt 0 self.now.plain }
    {
        self.plain > 0
    }

    /// Whether it has neither its name nor a future or a guard.
    pub fn is_over(&self) -> bool
        ensures { result ≡ is_over self.now }
    {
        !self.named && self.things == 0
    }

    /// Whether a future may have the lock at its poll: it holds it, or nothing that is held keeps it out.
    pub fn may_have(&self, future: &FutureEntry<C>) -> bool
        ensures { result ≡ (future.now.holds || not (keeps_out (is_write future.now.wait) self.now.lock)) }
    {
        future.holds || !self.core.keeps_out(C::writes(&future.wait))
    }

    /// One future or guard more.
    pub fn begin(&mut self, plain: bool)
        requires things { self.old.things + 1 < 2 ^ 128 }
        requires plain { self.old.plain + 1 < 2 ^ 128 }
        ensures { self.new ≡ begun self.old plain }
    {
        self.things += 1;
        self.plain += one_if(plain);
    }

    /// One future or guard less.
    pub fn finish(&mut self, plain: bool)
        requires things { 1 ≤ self.old.things }
        requires plain { cond plain 1 0 ≤ self.old.plain }
        ensures { self.new ≡ finished self.old plain }
    {
        self.things -= 1;
        self.plain -= one_if(plain);
    }

    /// Hands on the wakers that the core has ready, and counts those that are registered, who were `before`.
    fn settle(&mut self, before: usize, ready: &mut Ready<u64>)
        requires fits { length self.old.lock.permits.queue + length self.old.lock.permits.wakes ≤ before }
        requires room { before ≤ ready.old.registered }
        ensures core { self.new ≡ record self.old { lock = settled self.old.lock } }
        ensures wakers { ready.new.wakers ≡ ready.old.wakers ++ map (λ k. k.waker) self.old.lock.permits.wakes }
        ensures counted { ready.new.registered + before ≡ ready.old.registered + length self.old.lock.permits.queue }
    {
        let mut gone = before - self.core.queue_len();
        while let Some(next) = self.core.next_wake() {
            ready.wake(next.waker);
            gone -= 1;
        }
        ready.unregister(gone);
    }

    /// Ends a guard: its permits go to those who wait.
    pub fn unlock(&mut self, write: bool, ready: &mut Ready<u64>)
        requires held { IsHeldAs self.old.lock write }
        requires quiet { self.old.lock.permits.wakes ≡ [] }
        requires room { length self.old.lock.permits.queue ≤ ready.old.registered }
        ensures { (l : NamedLock) × UnlocksLock self.old.lock write l × Settles self.old l self.new ready.old ready.new }
    {
        let before = self.core.queue_len();
        self.core.unlock(write);
        self.settle(before, ready);
    }

    /// Ends a future.
    pub fn cancel(&mut self, future: FutureEntry<C>, ready: &mut Ready<u64>)
        requires belongs { MayCancel self.old.lock future.wait }
        requires quiet { self.old.lock.permits.wakes ≡ [] }
        requires room { length self.old.lock.permits.queue ≤ ready.old.registered }
        ensures { (l : NamedLock) × CancelsLock self.old.lock future.wait l × Settles self.old l self.new ready.old ready.new }
    {
        let before = self.core.queue_len();
        self.core.cancel(future.wait);
        self.settle(before, ready);
    }

    /// Ends a future, also one that holds the lock.
    pub fn end_future(&mut self, future: FutureEntry<C>, ready: &mut Ready<u64>)
        requires belongs { future.holds ≡ false → MayCancel self.old.lock future.wait }
        requires held { future.holds ≡ true → IsHeldAs self.old.lock true }
        requires quiet { self.old.lock.permits.wakes ≡ [] }
        requires room { length self.old.lock.permits.queue ≤ ready.old.registered }
        ensures { (l : NamedLock) × EndsLock self.old.lock future l × Settles self.old l self.new ready.old ready.new }
    {
        if future.holds {
            self.unlock(true, ready);
        } else {
            self.cancel(future, ready);
        }
    }

    // Polls the future of a wait, which is named `f`, where it does not hold the lock, and tells whether it has it.
    fn ask(
        &mut self,
        f: u64,
        future: &mut FutureEntry<C>,
        waker: u64,
        ready: &mut Ready<u64>,
    ) -> Result<bool, NoMemory>
        requires allowed { MayPoll self.old.lock future.old.wait }
        requires held { future.old.holds ≡ true → IsHeldAs self.old.lock true }
        requires writes { is_write future.old.wait ≡ true }
        requires quiet { self.old.lock.permits.wakes ≡ [] }
        requires room { length self.old.lock.permits.queue ≤ ready.old.registered }
        ensures asks { IfOk result (λ has. Asks has self.old f future.old waker self.new future.new ready.old ready.new) }
        ensures err { OnErr result ((self.new ≡ self.old) × (future.new ≡ future.old) × (ready.new ≡ ready.old)) }
    {
        // That the core is sound is known from here on.
        let _ = self.core.queue_len();
        if future.holds {
            return Ok(true);
        }
        match self.poll(f, future, waker, ready)? {
            Turn::Pending => Ok(false),
            Turn::Ready(_) => Ok(true),
        }
    }

    /// Polls the future of a wait, which is named `f`, and gives the lock up again where the wait goes on at the
    /// value.
    pub fn poll_until(
        &mut self,
        f: u64,
        future: &mut FutureEntry<C>,
        waker: u64,
        until: Until,
        ready: &mut Ready<u64>,
    ) -> Result<Asked, NoMemory>
        requires allowed { MayPoll self.old.lock future.old.wait }
        requires held { future.old.holds ≡ true → IsHeldAs self.old.lock true }
        requires writes { is_write future.old.wait ≡ true }
        requires quiet { self.old.lock.permits.wakes ≡ [] }
        requires room { length self.old.lock.permits.queue ≤ ready.old.registered }
        ensures polls { IfOk result (λ asked. PolledUntil self.old f future.old waker until asked self.new future.new ready.old ready.new) }
        ensures err { OnErr result ((self.new ≡ self.old) × (future.new ≡ future.old) × (ready.new ≡ ready.old)) }
    {
        if !self.ask(f, future, waker, ready)? {
            return Ok(Asked::Asks);
        }
        if !goes_on(until, self.core.value_by(true)) {
            return Ok(Asked::Ready);
        }
        future.wait = self.core.new_wait(true);
        future.holds = false;
        self.unlock(true, ready);
        Ok(Asked::Lays)
    }

    /// Polls a future, which is named `f`. The waker is counted before it is registered, and no longer where it
    /// was not registered or took the place of an earlier one.
    pub fn poll(
        &mut self,
        f: u64,
        future: &mut FutureEntry<C>,
        waker: u64,
        ready: &mut Ready<u64>,
    ) -> Result<Turn<NamedWaker>, NoMemory>
        requires allowed { MayPoll self.old.lock future.old.wait }
        requires room { length self.old.lock.permits.queue ≤ ready.old.registered }
        ensures polls { IfOk result (λ turn. Polled self.old f future.old waker turn self.new future.new ready.old ready.new) }
        ensures err { OnErr result ((self.new ≡ self.old) × (future.new ≡ future.old) × (ready.new ≡ ready.old)) }
    {
        ready.register()?;
        let before = self.core.queue_len();
        let Ok(turn) = self
            .core
            .poll(&mut future.wait, NamedWaker { name: f, waker })
        else {
            ready.unregister(1);
            return Err(NoMemory);
        };
        let more = self.core.queue_len() - before;
        ready.unregister(1 - more);
        Ok(turn)
    }

    /// Takes the permits of a read, or of a write, where they are free, and tells whether it did.
    pub fn try_lock(&mut self, write: bool) -> bool
        requires { C.is_only_written ≡ true → write ≡ true }
        ensures taken { share_of self.old.lock write ≤ self.old.lock.permits.free → (result ≡ true) × TakesLock self.old.lock write self.new.lock × (self.new ≡ record self.old { lock = self.new.lock }) }
        ensures refused { self.old.lock.permits.free < share_of self.old.lock write → (result ≡ false) × (self.new ≡ self.old) }
    {
        self.core.try_lock(write)
    }

    /// The value, by a guard that reads, or writes.
    pub fn value_by(&self, write: bool) -> u64
        requires { IsHeldAs self.now.lock write }
        ensures { result ≡ self.now.lock.value }
    {
        self.core.value_by(write)
    }

    /// Writes the value, by a guard that writes.
    pub fn set_value(&mut self, value: u64)
        requires { self.old.lock.writing ≡ true }
        ensures { self.new ≡ record self.old { lock = record self.old.lock { value = value } } }
    {
        self.core.set_value(value);
    }

    /// The value of a lock that nobody holds or waits for.
    pub fn idle_value(&mut self) -> u64
        requires { self.old.lock.permits.free ≡ self.old.lock.most }
        ensures value { result ≡ self.old.lock.value }
        ensures same { self.new ≡ self.old }
    {
        self.core.idle_value()
    }

    /// Writes it.
    pub fn set_idle_value(&mut self, value: u64)
        requires { self.old.lock.permits.free ≡ self.old.lock.most }
        ensures { self.new ≡ record self.old { lock = record self.old.lock { value = value } } }
    {
        self.core.set_idle_value(value);
    }

    /// Takes it out.
    pub fn into_value(self) -> u64
        requires { self.lock.permits.free ≡ self.lock.most }
        ensures { result ≡ self.lock.value }
    {
        self.core.into_value()
    }
}

impl<C: LoweredCore> LockEntry<C> {
    ghost use Rattle.mea_lock.specs.Entries.{Settles};

    /// A guard that writes reads from now on, and gives up all permits but one.
    pub fn lower(&mut self, ready: &mut Ready<u64>)
        requires held { self.old.lock.writing ≡ true }
        requires quiet { self.old.lock.permits.wakes ≡ [] }
        requires room { length self.old.lock.permits.queue ≤ ready.old.registered }
        ensures { (l : NamedLock) × LowersLock self.old.lock l × Settles self.old l self.new ready.old ready.new }
    {
        let before = self.core.queue_len();
        self.core.lower();
        self.settle(before, ready);
    }
}
