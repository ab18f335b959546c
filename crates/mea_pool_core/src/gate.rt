ghost use Rattle.std.specs.Prelude.{◌≡◌, ◌<◌, ◌^◌, ◌↔◌, [], ◌∷◌, length, true, false, IsTrue, IfOk, IfErr, IfSome, IfNone, OnErr};
ghost use Rattle.std.specs.FinMap as map;
ghost use Rattle.mea_pool_core.specs.Gate.{MayPollAt, MayEndAt, PollsGate, EndsGate, gate_opened, listed_of};

use crate::drain_wait::DrainWait;
use mea_base::{NoMemory, Poll, Turn};
use mea_lock_core::{CondWait, CondvarCore, MutexCore};
use std::alloc::Global;
use std::marker::Model;

// A gate that opens once, and who waits for that: a flag under a lock, and a condition variable. The lock is held within
// a call alone, by who looks at the flag before it waits, or again once it was told.
#[derive(Drop)]
pub(crate) struct Gate<W> {
    flag: MutexCore<bool, W>,
    waits: CondvarCore<W>,
}

impl<W> Model for Gate<W> {
    ghost use Rattle.mea_pool_core.specs.Gate.{Gate, gate_code, gate_of, IsGate};

    ghost Value = { Gate W };

    ghost coded = { gate_code W.code };

    ghost view = { λ g. gate_of g.flag g.waits };

    ghost invariant = { λ g. IsGate g.flag g.waits };
}

impl<W: Drop> Gate<W> {
    // A gate that is shut. It takes no memory.
    pub(crate) fn new(alloc: Global) -> Self
        ensures { result ≡ record { opened = false; waiting = []; told = map.empty; wakes = [] } }
    {
        Gate {
            flag: MutexCore::new(alloc, false),
            waits: CondvarCore::new(alloc),
        }
    }

    // Polls a wait: ready where the gate is open, or pending with the waker kept. It takes memory only where a new wait has
    // to wait, and where there is none the waker comes back and nothing has changed.
    pub(crate) fn poll(&mut self, wait: &mut DrainWait, waker: W) -> Result<Poll<()>, (W, NoMemory)>
        requires { MayPollAt self.old.waiting self.old.told wait.old }
        ensures polls { PollsGate self.old wait.old waker result self.new wait.new }
        ensures err { OnErr result ((self.new ≡ self.old) × (wait.new ≡ wait.old)) }
    {
        match *wait {
            DrainWait::New => self.enter(wait, waker),
            DrainWait::Listed { number } => self.resume(number, wait, waker),
            DrainWait::Done => unreachable!(),
        }
    }

    // A first poll: it takes the lock, looks at the flag, and waits with the lock given back where the gate is shut.
    fn enter(&mut self, wait: &mut DrainWait, waker: W) -> Result<Poll<()>, (W, NoMemory)>
        requires { wait.old ≡ DrainWait.New }
        ensures polls { PollsGate self.old DrainWait.New waker result self.new wait.new }
        ensures err { OnErr result ((self.new ≡ self.old) × (wait.new ≡ wait.old)) }
    {
        self.flag.try_lock();
        if *self.flag.value() {
            self.flag.unlock();
            *wait = DrainWait::Done;
            return Ok(Poll::Ready(()));
        }
        let mut stage = CondWait::new();
        match self.waits.poll_wait(&mut self.flag, &mut stage, waker) {
            Ok(_) => {
                *wait = listed(stage);
                Ok(Poll::Pending)
            }
            Err(failed) => {
                self.flag.unlock();
                Err(failed)
            }
        }
    }

    // A further poll: one that was told has the lock again, finds the gate open, and gives the lock back.
    fn resume(
        &mut self,
        number: usize,
        wait: &mut DrainWait,
        waker: W,
    ) -> Result<Poll<()>, (W, NoMemory)>
        requires listed { wait.old ≡ DrainWait.Listed number }
        requires known { MayPollAt self.old.waiting self.old.told (DrainWait.Listed number) }
        ensures polls { PollsGate self.old (DrainWait.Listed number) waker result self.new wait.new }
        ensures err { OnErr result ((self.new ≡ self.old) × (wait.new ≡ wait.old)) }
    {
        let mut stage = CondWait::Listed { number };
        let turn = self.waits.poll_wait(&mut self.flag, &mut stage, waker)?;
        let Turn::Ready(_) = turn else {
            return Ok(Poll::Pending);
        };
        self.flag.unlock();
        *wait = DrainWait::Done;
        Ok(Poll::Ready(()))
    }

    // Opens the gate where told to, and tells all that wait; one that is open stays so. It takes no memory.
    pub(crate) fn open_if(&mut self, opens: bool)
        ensures opens { opens ≡ true → self.old.opened ≡ false → self.new ≡ gate_opened self.old }
        ensures same { opens ≡ self.old.opened → self.new ≡ self.old }
    {
        if opens {
            *self.flag.get_mut() = true;
            self.waits.notify_all();
        }
    }

    // Ends a wait. It takes no memory.
    pub(crate) fn end(&mut self, wait: DrainWait)
        requires { MayEndAt self.old.waiting self.old.told wait }
        ensures { EndsGate self.old wait self.new }
    {
        if let DrainWait::Listed { number } = wait {
            self.waits
                .end_wait(&mut self.flag, CondWait::Listed { number });
        }
    }

    // Whether the wait is one of this gate and was not ready yet. It takes no memory.
    pub(crate) fn may_poll(&self, wait: &DrainWait) -> bool
        ensures { IsTrue result ↔ MayPollAt self.now.waiting self.now.told wait.now }
    {
        match *wait {
            DrainWait::New => true,
            DrainWait::Listed { number } => self
                .waits
                .poll_wait_allowed(&self.flag, &CondWait::Listed { number }),
            DrainWait::Done => false,
        }
    }

    // Whether the wait is one of this gate. It takes no memory.
    pub(crate) fn may_end(&self, wait: &DrainWait) -> bool
        ensures { IsTrue result ↔ MayEndAt self.now.waiting self.now.told wait.now }
    {
        match *wait {
            DrainWait::New | DrainWait::Done => true,
            DrainWait::Listed { number } => self
                .waits
                .end_wait_allowed(&self.flag, &CondWait::Listed { number }),
        }
    }

    // How many wakers are to be called. It takes no memory.
    pub(crate) fn wakes_ready(&self) -> usize
        ensures count { result ≡ length self.now.wakes }
        ensures bound { result < 2 ^ 63 }
    {
        self.waits.wakes_ready()
    }

    // Takes the first waker that is to be called. It takes no memory.
    pub(crate) fn next_wake(&mut self) -> Option<W>
        ensures some { IfSome result (λ waker. self.old ≡ record self.new { wakes = waker ∷ self.new.wakes }) }
        ensures none { IfNone result ((self.old.wakes ≡ []) × (self.new ≡ self.old)) }
    {
        self.waits.next_wake()
    }
}

// The wait of a gate that stands in the condition variable at this stage.
fn listed(stage: CondWait) -> DrainWait
    ensures { result ≡ listed_of stage }
{
    match stage {
        CondWait::Listed { number } => DrainWait::Listed { number },
        CondWait::New | CondWait::Locking { .. } | CondWait::Done => DrainWait::Done,
    }
}
