ghost use Rattle.std.specs.Prelude.{◌≡◌, ◌+◌, ◌<◌, ◌≤◌, Some, OnOk, length};

use mea_base::{NoMemory, Outbox, WaitList};
use std::mem;

/// What stands under a number of a semaphore's wait list.
#[derive(Drop)]
pub(crate) enum WaitRecord<W> {
    /// An acquire that waits.
    Acquire {
        demand: usize,
        lack: usize,
        waker: W,
    },
    /// Permits that were taken away before they were free.
    Debt {
        lack: usize,
    },
    /// An acquire that was paid whole, and not polled since. It has left the queue.
    Granted {
        demand: usize,
    },
    /// An acquire that a close took out of the queue, and that was not polled since.
    Cut {
        demand: usize,
    },
}

impl<W> WaitRecord<W> {
    ghost use Rattle.mea_sem_core.specs.Places.{lack_of, debt_in, is_acquire_of, is_grant_of, is_cut, is_debt, with_new_waker, paid_slot, LacksAtMost, after_payment, after_grant, after_cut, waker_of};

    /// What it lacks, and 0 where it was granted or cut.
    pub(crate) fn lack(&self) -> usize
        ensures { result ≡ lack_of self.now }
    {
        match self {
            WaitRecord::Acquire { lack, .. } | WaitRecord::Debt { lack } => *lack,
            WaitRecord::Granted { .. } | WaitRecord::Cut { .. } => 0,
        }
    }

    /// What a debt lacks, and 0 for an acquire.
    pub(crate) fn debt(&self) -> usize
        ensures { result ≡ debt_in self.now }
    {
        match self {
            WaitRecord::Debt { lack } => *lack,
            _ => 0,
        }
    }

    /// What has been paid to an acquire. A payment to a debt is gone.
    pub(crate) fn paid(&self) -> usize
        requires { LacksAtMost self.now }
        ensures { result ≡ paid_slot (Some self.now) }
    {
        match self {
            WaitRecord::Acquire { demand, lack, .. } => *demand - *lack,
            WaitRecord::Debt { .. } | WaitRecord::Cut { .. } => 0,
            WaitRecord::Granted { demand } => *demand,
        }
    }

    /// Whether it is an acquire of this demand, that waits, was granted or was cut.
    pub(crate) fn is_acquire_of(&self, demand: usize) -> bool
        ensures { result ≡ is_acquire_of self.now demand }
    {
        match self {
            WaitRecord::Acquire { demand: own, .. }
            | WaitRecord::Granted { demand: own }
            | WaitRecord::Cut { demand: own } => *own == demand,
            WaitRecord::Debt { .. } => false,
        }
    }

    /// Whether it is an acquire of this demand that was granted.
    pub(crate) fn is_grant_of(&self, demand: usize) -> bool
        ensures { result ≡ is_grant_of self.now demand }
    {
        match self {
            WaitRecord::Granted { demand: own } => *own == demand,
            _ => false,
        }
    }

    /// Whether it is an acquire that was cut.
    pub(crate) fn is_cut(&self) -> bool
        ensures { result ≡ is_cut self.now }
    {
        matches!(self, WaitRecord::Cut { .. })
    }

    /// Whether it is a debt.
    pub(crate) fn is_debt(&self) -> bool
        ensures { result ≡ is_debt self.now }
    {
        matches!(self, WaitRecord::Debt { .. })
    }

    /// Keeps another waker for an acquire that waits.
    pub(crate) fn set_waker(&mut self, new: W)
    where
        W: Drop,
        ensures { self.new ≡ with_new_waker self.old new }
    {
        if let WaitRecord::Acquire { waker, .. } = self {
            *waker = new;
        }
    }

    /// Pays a part of the lack.
    pub(crate) fn pay(&mut self, amount: usize)
        requires { amount < lack_of self.old }
        ensures { self.new ≡ after_payment self.old amount }
    {
        match self {
            WaitRecord::Acquire { lack, .. } => *lack -= amount,
            WaitRecord::Debt { lack } => *lack -= amount,
            WaitRecord::Granted { .. } | WaitRecord::Cut { .. } => {}
        }
    }

    /// Grants an acquire, and takes its waker.
    pub(crate) fn grant(&mut self) -> Option<W>
    where
        W: Drop,
        ensures waker { result ≡ waker_of self.old }
        ensures granted { self.new ≡ after_grant self.old }
    {
        let WaitRecord::Acquire { demand, .. } = self else {
            return None;
        };
        let granted = WaitRecord::Granted { demand: *demand };
        match mem::replace(self, granted) {
            WaitRecord::Acquire { waker, .. } => Some(waker),
            _ => unreachable!(),
        }
    }

    /// Cuts an acquire that waits, and takes its waker.
    pub(crate) fn cut(&mut self) -> Option<W>
    where
        W: Drop,
        ensures waker { result ≡ waker_of self.old }
        ensures cut { self.new ≡ after_cut self.old }
    {
        let WaitRecord::Acquire { demand, .. } = self else {
            return None;
        };
        let cut = WaitRecord::Cut { demand: *demand };
        match mem::replace(self, cut) {
            WaitRecord::Acquire { waker, .. } => Some(waker),
            _ => unreachable!(),
        }
    }
}

/// Makes room for one more waiter: for its place, and for the wakers of all that then wait. Nothing else
/// changes.
pub(crate) fn reserve_place<W>(
    waiters: &mut WaitList<WaitRecord<W>>,
    outbox: &mut Outbox<W>,
) -> Result<(), NoMemory>
    ensures waiters { waiters.new ≡ record waiters.old { spare = waiters.new.spare } }
    ensures outbox { outbox.new ≡ record outbox.old { spare = outbox.new.spare } }
    ensures grows { outbox.old.spare ≤ outbox.new.spare }
    ensures place { OnOk result (1 ≤ waiters.new.spare) }
    ensures room { OnOk result (length waiters.old.order + 1 ≤ outbox.new.spare) }
{
    let Some(most) = waiters.len().checked_add(1) else {
        return Err(NoMemory);
    };
    waiters.reserve(1)?;
    outbox.reserve(most)
}
