ghost use Rattle.std.specs.Prelude.{◌≡◌, ◌+◌, ◌<◌, ◌≤◌, ◌^◌, ◌↔◌, [], ◌∷◌, length, true, false, IsTrue, IsOk, IsErr, IfNone, IfSome, OnErr, OnOk};
ghost use Rattle.mea_sets.specs.WaitSet.{has_given, is_registered};
ghost use Rattle.mea_sets.specs.Countdown.{count_from, PollsCount};
ghost use Rattle.mea_meet_core.specs.Count.{increased, usable};
ghost use Rattle.mea_meet_core.specs.Shutdown.{Shutdown, signalled, without_receiver, without_receivers};

use crate::group_core::{GroupCore, GroupWait};
use crate::latch_core::{LatchCore, LatchWait};
use mea_base::{NoMemory, Outbox, Overflow, Poll};
use std::alloc::Global;
use std::marker::Model;

/// The core of a shutdown: a signal that is set once, and a count of receivers, each with those who wait
/// for it. It stands on the contracts of the latch and of the wait group alone; their wakers move to an
/// outbox of its own, so that wakers of both keep the order in which they were made ready.
///
/// It ports the state that `mea`'s `ShutdownSend` and `ShutdownRecv` share.
pub struct ShutdownCore<W> {
    signal: LatchCore<W>,
    receivers: GroupCore<W>,
    outbox: Outbox<W>,
}

impl<W> Model for ShutdownCore<W> {
    ghost use Rattle.std.specs.Prelude.{◌≡◌, ◌+◌, ◌≤◌, [], length};
    ghost use Rattle.mea_meet_core.specs.Shutdown.{Shutdown, shutdown_code};

    ghost Value = { Shutdown W };

    ghost coded = { shutdown_code W.code };

    ghost view = { λ s. record { signal = s.signal.count; receivers = s.receivers.count; wakes = s.outbox.wakers } };

    ghost invariant = { λ s. record {
      room : length s.signal.count.waiting.wakers + length s.receivers.count.waiting.wakers ≤ s.outbox.spare;
      signal_moved : s.signal.wakes ≡ [];
      receivers_moved : s.receivers.wakes ≡ [];
    } };
}

// Written out: a derived one is proved anew in each crate that hands a value of this type to a generic function.
impl<W: Drop> Drop for ShutdownCore<W> {
    fn drop(self) {
        let ShutdownCore {
            signal: _,
            receivers: _,
            outbox: _,
        } = self;
    }
}

impl<W: Drop> ShutdownCore<W> {
    /// A shutdown whose signal is not set, with one receiver. It takes no memory.
    pub fn new(alloc: Global) -> Self
        ensures { result ≡ record { signal = count_from 1; receivers = count_from 1; wakes = [] } }
    {
        ShutdownCore {
            signal: LatchCore::new(alloc, 1),
            receivers: GroupCore::new(alloc),
            outbox: Outbox::new(alloc),
        }
    }

    /// Sets the signal; where it was not set, wakes those who wait for it. It takes no memory.
    pub fn signal(&mut self)
        ensures { self.new ≡ signalled self.old }
    {
        self.signal.count_down();
        self.signal.move_wakes(&mut self.outbox);
    }

    /// Whether the signal is set. It takes no memory.
    pub fn is_shutdown_now(&self) -> bool
        ensures { IsTrue result ↔ (self.now.signal.number ≡ 0) }
    {
        self.signal.try_wait().is_ok()
    }

    /// Is ready where the signal is set. Else the waker is registered for that, in place of this wait's
    /// earlier one if that is registered; with no memory nothing has changed.
    pub fn poll_signal(&mut self, wait: &mut LatchWait, waker: W) -> Result<Poll<()>, (W, NoMemory)>
        requires { has_given self.old.signal.waiting wait.old ≡ true }
        ensures polls { PollsCount self.old.signal wait.old waker result self.new.signal wait.new }
        ensures replaces { is_registered self.old.signal.waiting wait.old ≡ true → IsOk result }
        ensures rest { self.new ≡ record self.old { signal = self.new.signal } }
    {
        if self.is_shutdown_now() {
            return Ok(Poll::Ready(()));
        }
        if reserve_for(
            &mut self.outbox,
            self.signal.is_registered(wait),
            self.signal.registered(),
            self.receivers.registered(),
        )
        .is_err()
        {
            return Err((waker, NoMemory));
        }
        self.signal.poll(wait, waker)
    }

    /// Whether the wait belongs to this shutdown, as `poll_signal` asks. It takes no memory.
    pub fn poll_signal_allowed(&self, wait: &LatchWait) -> bool
        ensures { result ≡ has_given self.now.signal.waiting wait.now }
    {
        self.signal.poll_allowed(wait)
    }

    /// As `poll_signal`, of a renewed wait where the wait does not belong to this shutdown.
    pub fn poll_signal_checked(
        &mut self,
        wait: &mut LatchWait,
        waker: W,
    ) -> Result<Poll<()>, (W, NoMemory)>
        ensures polls { PollsCount self.old.signal (usable self.old.signal wait.old) waker result self.new.signal wait.new }
        ensures replaces { is_registered self.old.signal.waiting wait.old ≡ true → IsOk result }
        ensures rest { self.new ≡ record self.old { signal = self.new.signal } }
    {
        if !self.poll_signal_allowed(wait) {
            wait.renew();
        }
        self.poll_signal(wait, waker)
    }

    /// How many receivers live. It takes no memory.
    ///
    /// The crate `mea` has no such call. It is here for one who has to know whether a further receiver fits
    /// before `add_receiver` is asked for it.
    pub fn receivers(&self) -> u32
        ensures { result ≡ self.now.receivers.number }
    {
        self.receivers.handles()
    }

    /// One receiver more, where one lives. It takes no memory.
    pub fn add_receiver(&mut self) -> Result<(), Overflow>
        requires { 0 < self.old.receivers.number }
        ensures ok { OnOk result (self.new ≡ record self.old { receivers = increased self.old.receivers }) }
        ensures overflow { IsErr result ↔ (self.old.receivers.number ≡ u32.MAX) }
        ensures err { OnErr result (self.new ≡ self.old) }
    {
        self.receivers.add()
    }

    /// Whether a receiver lives, as `add_receiver` asks. It takes no memory.
    pub fn add_receiver_allowed(&self) -> bool
        ensures { IsTrue result ↔ (0 < self.now.receivers.number) }
    {
        self.receivers.add_allowed()
    }

    /// As `add_receiver`; where no receiver lives it is Ok and changes nothing. It takes no memory.
    pub fn add_receiver_checked(&mut self) -> Result<(), Overflow>
        ensures ok { OnOk result (0 < self.old.receivers.number → self.new ≡ record self.old { receivers = increased self.old.receivers }) }
        ensures overflow { IsErr result ↔ (self.old.receivers.number ≡ u32.MAX) }
        ensures err { OnErr result (self.new ≡ self.old) }
        ensures ended { self.old.receivers.number ≡ 0 → self.new ≡ self.old }
    {
        if self.add_receiver_allowed() {
            self.add_receiver()
        } else {
            Ok(())
        }
    }

    /// One receiver less, where one lives; at the last it wakes those who wait for that. It takes no
    /// memory.
    pub fn end_receiver(&mut self)
        requires { 0 < self.old.receivers.number }
        ensures { self.new ≡ without_receiver self.old }
    {
        self.receivers.leave();
        self.receivers.move_wakes(&mut self.outbox);
    }

    /// Whether a receiver lives, as `end_receiver` asks. It takes no memory.
    pub fn end_receiver_allowed(&self) -> bool
        ensures { IsTrue result ↔ (0 < self.now.receivers.number) }
    {
        self.receivers.leave_allowed()
    }

    /// As `end_receiver`; where no receiver lives it changes nothing. It takes no memory.
    pub fn end_receiver_checked(&mut self)
        ensures leaves { 0 < self.old.receivers.number → self.new ≡ without_receiver self.old }
        ensures ended { self.old.receivers.number ≡ 0 → self.new ≡ self.old }
    {
        if self.end_receiver_allowed() {
            self.end_receiver();
        }
    }

    /// `n` receivers less at once, where so many live, as `n` calls of `end_receiver`; at the last it wakes those
    /// who wait for that. It takes no memory, and no more time for many than for one.
    pub fn leave(&mut self, n: u32)
        requires { n ≤ self.old.receivers.number }
        ensures { self.new ≡ without_receivers self.old n }
    {
        self.receivers.leave_many(n);
        self.receivers.move_wakes(&mut self.outbox);
    }

    /// Whether `n` receivers live, as `leave` asks. It takes no memory.
    pub fn leave_allowed(&self, n: u32) -> bool
        ensures { IsTrue result ↔ (n ≤ self.now.receivers.number) }
    {
        n <= self.receivers()
    }

    /// As `leave`; where fewer receivers live it changes nothing. It takes no memory.
    pub fn leave_checked(&mut self, n: u32)
        ensures leaves { n ≤ self.old.receivers.number → self.new ≡ without_receivers self.old n }
        ensures refused { self.old.receivers.number < n → self.new ≡ self.old }
    {
        if self.leave_allowed(n) {
            self.leave(n);
        }
    }

    /// Is ready where no receiver lives, whatever the signal. Else the waker is registered for that, in
    /// place of this wait's earlier one if that is registered; with no memory nothing has changed.
    pub fn poll_receivers(
        &mut self,
        wait: &mut GroupWait,
        waker: W,
    ) -> Result<Poll<()>, (W, NoMemory)>
        requires { has_given self.old.receivers.waiting wait.old ≡ true }
        ensures polls { PollsCount self.old.receivers wait.old waker result self.new.receivers wait.new }
        ensures replaces { is_registered self.old.receivers.waiting wait.old ≡ true → IsOk result }
        ensures rest { self.new ≡ record self.old { receivers = self.new.receivers } }
    {
        if !self.receivers.leave_allowed() {
            return Ok(Poll::Ready(()));
        }
        if reserve_for(
            &mut self.outbox,
            self.receivers.is_registered(wait),
            self.signal.registered(),
            self.receivers.registered(),
        )
        .is_err()
        {
            return Err((waker, NoMemory));
        }
        self.receivers.poll(wait, waker)
    }

    /// Whether the wait belongs to this shutdown, as `poll_receivers` asks. It takes no memory.
    pub fn poll_receivers_allowed(&self, wait: &GroupWait) -> bool
        ensures { result ≡ has_given self.now.receivers.waiting wait.now }
    {
        self.receivers.poll_allowed(wait)
    }

    /// As `poll_receivers`, of a renewed wait where the wait does not belong to this shutdown.
    pub fn poll_receivers_checked(
        &mut self,
        wait: &mut GroupWait,
        waker: W,
    ) -> Result<Poll<()>, (W, NoMemory)>
        ensures polls { PollsCount self.old.receivers (usable self.old.receivers wait.old) waker result self.new.receivers wait.new }
        ensures replaces { is_registered self.old.receivers.waiting wait.old ≡ true → IsOk result }
        ensures rest { self.new ≡ record self.old { receivers = self.new.receivers } }
    {
        if !self.poll_receivers_allowed(wait) {
            wait.renew();
        }
        self.poll_receivers(wait, waker)
    }

    /// Ends a wait for the signal, whose waker stays. It takes no memory.
    pub fn end_signal(&mut self, wait: LatchWait)
        requires { has_given self.old.signal.waiting wait ≡ true }
        ensures { self.new ≡ self.old }
    {
        self.signal.end(wait);
    }

    /// Whether the wait belongs to this shutdown, as `end_signal` asks. It takes no memory.
    pub fn end_signal_allowed(&self, wait: &LatchWait) -> bool
        ensures { result ≡ has_given self.now.signal.waiting wait.now }
    {
        self.signal.end_allowed(wait)
    }

    /// As `end_signal`; it changes nothing in any case. It takes no memory.
    pub fn end_signal_checked(&mut self, wait: LatchWait)
        ensures { self.new ≡ self.old }
    {
        if self.end_signal_allowed(&wait) {
            self.end_signal(wait);
        }
    }

    /// Ends a wait for the last receiver, whose waker stays. It takes no memory.
    pub fn end_receivers(&mut self, wait: GroupWait)
        requires { has_given self.old.receivers.waiting wait ≡ true }
        ensures { self.new ≡ self.old }
    {
        self.receivers.end(wait);
    }

    /// Whether the wait belongs to this shutdown, as `end_receivers` asks. It takes no memory.
    pub fn end_receivers_allowed(&self, wait: &GroupWait) -> bool
        ensures { result ≡ has_given self.now.receivers.waiting wait.now }
    {
        self.receivers.end_allowed(wait)
    }

    /// As `end_receivers`; it changes nothing in any case. It takes no memory.
    pub fn end_receivers_checked(&mut self, wait: GroupWait)
        ensures { self.new ≡ self.old }
    {
        if self.end_receivers_allowed(&wait) {
            self.end_receivers(wait);
        }
    }

    /// How many wakers are registered on the signal. It takes no memory.
    pub fn registered_on_signal(&self) -> usize
        ensures { result ≡ length self.now.signal.waiting.wakers }
    {
        self.signal.registered()
    }

    /// How many wakers are registered on the end of the last receiver. It takes no memory.
    pub fn registered_on_receivers(&self) -> usize
        ensures { result ≡ length self.now.receivers.waiting.wakers }
    {
        self.receivers.registered()
    }

    /// How many wakers are ready. It takes no memory.
    pub fn wakes_ready(&self) -> usize
        ensures is { result ≡ length self.now.wakes }
        ensures bound { result < 2 ^ 63 }
    {
        self.outbox.len()
    }

    /// Takes the first waker that is ready. It takes no memory.
    pub fn next_wake(&mut self) -> Option<W>
        ensures first { IfSome result (λ w. self.old ≡ record self.new { wakes = w ∷ self.new.wakes }) }
        ensures empty { IfNone result ((self.old.wakes ≡ []) × (self.new ≡ self.old)) }
    {
        self.outbox.pop()
    }
}

// Makes room for one waker more than wait for the two ends, where the poll registers one.
fn reserve_for<W>(
    outbox: &mut Outbox<W>,
    is_registered: bool,
    on_signal: usize,
    on_receivers: usize,
) -> Result<(), NoMemory>
    ensures room { OnOk result (is_registered ≡ false → on_signal + on_receivers + 1 ≤ outbox.new.spare) }
    ensures replaces { is_registered ≡ true → IsOk result }
    ensures grows { outbox.old.spare ≤ outbox.new.spare }
    ensures wakers { outbox.new.wakers ≡ outbox.old.wakers }
{
    if is_registered {
        return Ok(());
    }
    let Some(registered) = on_signal.checked_add(on_receivers) else {
        return Err(NoMemory);
    };
    let Some(all) = registered.checked_add(1) else {
        return Err(NoMemory);
    };
    outbox.reserve(all)
}
