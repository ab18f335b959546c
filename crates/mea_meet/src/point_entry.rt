ghost use Rattle.std.specs.Prelude.{◌≡◌, ◌≢◌, ◌+◌, ◌-◌, ◌<◌, ◌≤◌, ◌^◌, ◌==◌, ◌++◌, [], length, map, true, false, if◌then◌else◌, OnErr, IfOk};
ghost use Rattle.mea_sets.specs.WaitSet.{has_given};
ghost use Rattle.mea_meet.specs.CountCores.{arrived, joined, parted, handed_on, count_at, kept_by};
ghost use Rattle.mea_meet.specs.Actions.{takes_many};
ghost use Rattle.mea_meet.specs.CountWaits.{end_of, slot_of};

use crate::count_core::CountCore;
use crate::count_wait::CountWait;
use mea_base::{NoMemory, Poll, Ready};
use mea_by_name::NamedWaker;
use std::marker::Model;

/// What a hall keeps of a meeting point that counts.
#[derive(Drop)]
pub struct PointEntry<C: CountCore> {
    core: C,
    // How many senders, holders and futures it has.
    things: u128,
}

impl<C: CountCore> Model for PointEntry<C> {
    ghost use Rattle.mea_meet.specs.CountEntries.{KeptPoint, kept_point_code};

    ghost Value = { KeptPoint };

    ghost coded = { kept_point_code };

    ghost view = { λ e. record { point = C.point_of e.core; things = e.things } };
}

impl<C: CountCore> PointEntry<C> {
    ghost use Rattle.mea_meet.specs.CountEntries.{is_full, Settles, Polled, Turns};

    /// A point of a new core, with its first holder, and a sender or none.
    pub fn new(core: C, sends: bool) -> Self
        ensures { result ≡ record { point = C.point_of core; things = if sends then 2 else 1 } }
    {
        PointEntry {
            core,
            things: if sends { 2 } else { 1 },
        }
    }

    /// Its core. It takes no memory.
    pub fn core(&self) -> &C
        ensures { C.point_of result.now ≡ self.now.point }
    {
        &self.core
    }

    /// Whether one more member, if it is to be counted, is more than it can count.
    pub fn is_full(&self, counted: bool) -> bool
        ensures { result ≡ is_full self.now counted }
    {
        counted && self.core.members() == u32::MAX
    }

    /// One thing more.
    pub fn begin(&mut self)
        requires { self.old.things + 1 < 2 ^ 128 }
        ensures { self.new ≡ record self.old { things = self.old.things + 1 } }
    {
        self.things += 1;
    }

    /// One thing less. Tells whether none is left, and then its wakers are registered no longer.
    pub fn finish(&mut self, ready: &mut Ready<u64>) -> bool
        requires some { 1 ≤ self.old.things }
        requires room { kept_by self.old.point ≤ ready.old.registered }
        ensures entry { self.new ≡ record self.old { things = self.old.things - 1 } }
        ensures over { result ≡ (self.new.things == 0) }
        ensures wakers { ready.new.wakers ≡ ready.old.wakers }
        ensures counted { ready.new.registered + (if result then kept_by self.new.point else 0) ≡ ready.old.registered }
    {
        self.things -= 1;
        if self.things > 0 {
            return false;
        }
        ready.unregister(self.core.registered_on_signal());
        ready.unregister(self.core.registered_on_members());
        true
    }

    // Hands on the wakers that the core has ready, in their order.
    fn hand_on(&mut self, ready: &mut Ready<u64>)
        requires { length self.old.point.wakes ≤ ready.old.registered }
        ensures { Settles self.old self.old.point self.new ready.old ready.new }
    {
        while let Some(next) = self.core.next_wake() {
            ready.wake(next.waker);
        }
    }

    /// Takes `n` from the signal, and hands on the wakers of those who waited for its end.
    pub fn arrive(&mut self, n: u32, ready: &mut Ready<u64>)
        requires most { takes_many C.kind ≡ false → n ≡ 1 }
        requires quiet { self.old.point.wakes ≡ [] }
        requires room { kept_by self.old.point ≤ ready.old.registered }
        ensures { Settles self.old (arrived self.old.point n) self.new ready.old ready.new }
    {
        self.core.arrive(n);
        self.hand_on(ready);
    }

    /// One holder more, which is counted or is not.
    pub fn join(&mut self, counted: bool)
        requires few { self.old.things + 1 < 2 ^ 128 }
        requires lives { counted ≡ true → 0 < self.old.point.receivers.number }
        requires fits { counted ≡ true → self.old.point.receivers.number ≢ 4294967295 }
        ensures { self.new ≡ record { point = joined self.old.point counted; things = self.old.things + 1 } }
    {
        self.things += 1;
        if counted {
            self.core.add();
        }
    }

    // One member less, where it is counted.
    fn leave(&mut self, counted: bool)
        requires { counted ≡ true → 0 < self.old.point.receivers.number }
        ensures { self.new ≡ record self.old { point = parted self.old.point counted } }
    {
        if counted {
            self.core.leave();
        }
    }

    /// One holder less, which was counted or was not; at the last member the wakers are handed on.
    pub fn part(&mut self, counted: bool, ready: &mut Ready<u64>)
        requires lives { counted ≡ true → 0 < self.old.point.receivers.number }
        requires quiet { self.old.point.wakes ≡ [] }
        requires room { kept_by self.old.point ≤ ready.old.registered }
        ensures { Settles self.old (parted self.old.point counted) self.new ready.old ready.new }
    {
        self.leave(counted);
        self.hand_on(ready);
    }

    // How many wakers are registered for what the wait waits for.
    fn registered_for(&self, wait: &CountWait) -> usize
        ensures { result ≡ length (count_at (end_of wait.now) self.now.point).waiting.wakers }
    {
        match wait {
            CountWait::Signal { .. } => self.core.registered_on_signal(),
            CountWait::Members { .. } => self.core.registered_on_members(),
        }
    }

    // Polls at the core.
    fn poll_core(&mut self, wait: &mut CountWait, waker: NamedWaker) -> Result<Poll<()>, NoMemory>
        requires { has_given (count_at (end_of wait.old) self.old.point).waiting (slot_of wait.old) ≡ true }
        ensures turns { IfOk result (λ turn. Turns self.old wait.old waker turn self.new wait.new) }
        ensures err { OnErr result ((self.new ≡ self.old) × (wait.new ≡ wait.old)) }
    {
        match wait {
            CountWait::Signal { wait, .. } => self.core.poll_signal(wait, waker),
            CountWait::Members { wait } => self.core.poll_members(wait, waker),
        }
    }

    /// Polls a future, which is named `f`. The waker is counted before it is registered, and no longer where it
    /// was not registered or took the place of an earlier one. On an error nothing has changed.
    pub fn poll(
        &mut self,
        f: u64,
        wait: &mut CountWait,
        waker: u64,
        ready: &mut Ready<u64>,
    ) -> Result<Poll<()>, NoMemory>
        requires { has_given (count_at (end_of wait.old) self.old.point).waiting (slot_of wait.old) ≡ true }
        ensures polls { IfOk result (λ turn. Polled self.old wait.old (record { name = f; waker = waker }) turn self.new wait.new ready.old ready.new) }
        ensures err { OnErr result ((self.new ≡ self.old) × (wait.new ≡ wait.old) × (ready.new ≡ ready.old)) }
    {
        ready.register()?;
        let before = self.registered_for(wait);
        let Ok(turn) = self.poll_core(wait, NamedWaker { name: f, waker }) else {
            ready.unregister(1);
            return Err(NoMemory);
        };
        let more = self.registered_for(wait) - before;
        ready.unregister(1 - more);
        Ok(turn)
    }
}
