ghost use Rattle.std.specs.Prelude.{◌≡◌, ◌≢◌, ◌≤◌, IfSome, is_some, Some};
ghost use Rattle.mea_family.specs.Causes.{borrowed_by};
ghost use Rattle.mea_meet_model.specs.Barriers.{no_barriers, is_barrier, is_wait, waits_of, registered};
ghost use Rattle.mea_meet_model.specs.declared.barrier_action.BarrierAction.TheVariants.{Make, Begin, Poll as PollIt, End, Drop};
ghost use Rattle.mea_meet_model.specs.BarrierActions.{cause_at};
ghost use Rattle.mea_meet.specs.BarrierParts.{StandsForBarrier};
ghost use Rattle.mea_meet.specs.Halls.{BarrierActs, BarrierActsQuietly};

use crate::barrier_entry::{BarrierEntry, BarrierWaitEntry, reply_of};
use mea_base::{Poll, Ready};
use mea_by_name::{ByName, NamedWaker};
use mea_family::{Reply, Stop, Word, borrowed_if, unknown_unless};
use mea_meet_core::{BarrierCore, BarrierWait};
use mea_meet_model::BarrierAction;
use std::alloc::Global;
use std::marker::Model;

/// The barriers with the futures that wait at them, each by the number of the event that made it. Each call costs a few
/// look-ups by name and the wakers that it makes ready.
#[derive(Drop)]
pub struct BarrierPart {
    barriers: ByName<BarrierEntry>,
    waits: ByName<BarrierWaitEntry>,
    // The least number that the next event may have, which may be 2^64.
    next: u128,
    alloc: Global,
}

impl Model for BarrierPart {
    ghost use Rattle.mea_family.specs.Play.{Part, part_code};
    ghost use Rattle.mea_meet_model.specs.Barriers.{Barriers, barriers_code};

    ghost Value = { Part Barriers };

    ghost coded = { part_code barriers_code };

    ghost use Rattle.mea_meet.specs.BarrierParts.{barriers_seen, AreKeptBarriers};

    ghost view = { λ a. record { hall = barriers_seen a.barriers a.waits; next = a.next } };

    ghost invariant = { λ a. AreKeptBarriers a.barriers a.waits a.next };
}

impl BarrierPart {
    /// No barrier. It takes no memory.
    pub fn new(alloc: Global) -> Self
        ensures { result ≡ record { hall = no_barriers; next = 0 } }
    {
        BarrierPart {
            barriers: ByName::new(alloc),
            waits: ByName::new(alloc),
            next: 0,
            alloc,
        }
    }

    /// The core of a barrier that is there. It takes no memory.
    pub fn core(&self, b: u64) -> Option<&BarrierCore<NamedWaker>>
        ensures there { is_some result ≡ is_barrier self.now.hall b }
        ensures stands { IfSome result (λ core. StandsForBarrier self.now.hall b core.now) }
    {
        let entry = self.barriers.get(b)?;
        Some(&entry.core)
    }

    /// Why an action is refused; None where it is not. It takes no memory.
    pub fn cause(&self, action: BarrierAction) -> Option<Stop>
        ensures { result ≡ cause_at self.now.hall action }
    {
        match action {
            BarrierAction::Make(_) => None,
            BarrierAction::Begin(b) => unknown_unless(self.is_barrier(b)),
            BarrierAction::Poll(f, _) | BarrierAction::End(f) => unknown_unless(self.is_wait(f)),
            BarrierAction::Drop(b) => self.cause_of_drop(b),
        }
    }

    /// Does an action, or finds why it is refused. On an error nothing has changed. Memory is taken for what is made and by a
    /// poll.
    pub fn act(
        &mut self,
        number: u64,
        action: BarrierAction,
        ready: &mut Ready<u64>,
    ) -> Result<Reply, Stop>
        requires next { self.old.next ≤ number }
        requires room { registered self.old.hall ≤ ready.old.registered }
        ensures { BarrierActs self.old number action result self.new ready.old ready.new }
    {
        match action {
            BarrierAction::Make(n) => self.make(number, n),
            BarrierAction::Begin(b) => self.begin(number, b),
            BarrierAction::Poll(f, waker) => self.poll(number, f, waker, ready),
            BarrierAction::End(f) => self.end(number, f),
            BarrierAction::Drop(b) => self.end_name(number, b, ready),
        }
    }

    fn is_barrier(&self, b: u64) -> bool
        ensures { result ≡ is_barrier self.now.hall b }
    {
        self.barriers.has(b)
    }

    fn is_wait(&self, f: u64) -> bool
        ensures { result ≡ is_wait self.now.hall f }
    {
        self.waits.has(f)
    }

    // Why a barrier may not be dropped: it is unknown, or a future borrows it.
    fn cause_of_drop(&self, b: u64) -> Option<Stop>
        ensures is { result ≡ borrowed_by (is_barrier self.now.hall b) (waits_of self.now.hall b) }
        ensures tells { result ≢ Some Stop.NoMemory }
    {
        match self.barriers.get(b) {
            Some(entry) => borrowed_if(entry.waits > 0),
            None => Some(Stop::Unknown),
        }
    }

    // Makes a barrier of n. On an error nothing has changed.
    fn make(&mut self, number: u64, n: u32) -> Result<Reply, Stop>
        requires { self.old.next ≤ number }
        ensures { BarrierActsQuietly self.old number (Make n) result self.new }
    {
        let entry = BarrierEntry {
            core: BarrierCore::new(self.alloc, n),
            waits: 0,
        };
        let Ok(()) = self.barriers.insert(number, entry) else {
            return Err(Stop::NoMemory);
        };
        self.next = number as u128 + 1;
        Ok(Reply(Word::Made))
    }

    // Makes a future. On an error nothing has changed.
    fn begin(&mut self, number: u64, b: u64) -> Result<Reply, Stop>
        requires { self.old.next ≤ number }
        ensures { BarrierActsQuietly self.old number (Begin b) result self.new }
    {
        let Some(entry) = self.barriers.get_mut(b) else {
            return Err(Stop::Unknown);
        };
        let future = BarrierWaitEntry {
            barrier: b,
            wait: BarrierWait::new(),
        };
        let Ok(()) = self.waits.insert(number, future) else {
            return Err(Stop::NoMemory);
        };
        entry.waits += 1;
        self.next = number as u128 + 1;
        Ok(Reply(Word::Made))
    }

    // Polls a future: a first poll arrives, and one that is ready is gone. On an error nothing has changed.
    fn poll(
        &mut self,
        number: u64,
        f: u64,
        waker: u64,
        ready: &mut Ready<u64>,
    ) -> Result<Reply, Stop>
        requires next { self.old.next ≤ number }
        requires room { registered self.old.hall ≤ ready.old.registered }
        ensures { BarrierActs self.old number (PollIt f waker) result self.new ready.old ready.new }
    {
        let Some(future) = self.waits.get_mut(f) else {
            return Err(Stop::Unknown);
        };
        let entry = self.barriers.at_mut(future.barrier);
        match entry.poll(f, &mut future.wait, waker, ready) {
            Err(_) => Err(Stop::NoMemory),
            Ok(Poll::Pending) => {
                self.next = number as u128 + 1;
                Ok(Reply(Word::Pending))
            }
            Ok(Poll::Ready(told)) => {
                entry.waits -= 1;
                let _ = self.waits.remove(f);
                self.next = number as u128 + 1;
                Ok(reply_of(told))
            }
        }
    }

    // Ends a future; its arrival and its waker stay. It takes no memory.
    fn end(&mut self, number: u64, f: u64) -> Result<Reply, Stop>
        requires { self.old.next ≤ number }
        ensures { BarrierActsQuietly self.old number (End f) result self.new }
    {
        let Some(future) = self.waits.take(f) else {
            return Err(Stop::Unknown);
        };
        self.barriers.at_mut(future.barrier).waits -= 1;
        self.next = number as u128 + 1;
        Ok(Reply(Word::Done))
    }

    // Ends a barrier at which no future waits. It takes no memory.
    fn end_name(&mut self, number: u64, b: u64, ready: &mut Ready<u64>) -> Result<Reply, Stop>
        requires next { self.old.next ≤ number }
        requires room { registered self.old.hall ≤ ready.old.registered }
        ensures { BarrierActs self.old number (Drop b) result self.new ready.old ready.new }
    {
        if let Some(stop) = self.cause_of_drop(b) {
            return Err(stop);
        }
        let entry = self.barriers.remove(b);
        ready.unregister(entry.core.registered());
        self.next = number as u128 + 1;
        Ok(Reply(Word::Done))
    }
}
