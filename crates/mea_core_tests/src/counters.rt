use crate::numbers::AtItsEnd;
use mea_base::Poll;
use mea_broadcast_core::{BroadcastCore, Cursor, SendRefused};
use mea_chan_core::{BoundedCore, UnboundedCore};
use mea_meet_core::{BarrierCore, BarrierFault, BarrierWait, GroupCore};
use mea_sem_core::SemCore;
use mea_sets::Countdown;
use mea_share_core::{FairCore, ShareAcquire, ShareFault, SharedKey};
use mea_test_support::Collides;

/// A semaphore with as many permits as it may have.
impl AtItsEnd for SemCore<u64> {
    fn refuses(&mut self) -> bool {
        self.release(1).is_err()
    }

    fn numbers(&mut self) -> [u64; 3] {
        [
            self.available_permits() as u64,
            self.live() as u64,
            self.queue_len() as u64,
        ]
    }

    fn goes_on(&mut self) -> bool {
        self.forget(1) == 1 && self.release(1).is_ok()
    }
}

/// A count that has no further number.
impl AtItsEnd for Countdown<u64> {
    fn refuses(&mut self) -> bool {
        self.count() > 0 && self.increment(1).is_err()
    }

    fn numbers(&mut self) -> [u64; 3] {
        [
            u64::from(self.count()),
            self.registered() as u64,
            self.wakes_ready() as u64,
        ]
    }

    fn goes_on(&mut self) -> bool {
        self.decrement(1);
        self.count() > 0 && self.increment(1).is_ok()
    }
}

/// A group with as many handles as it may have.
impl AtItsEnd for GroupCore<u64> {
    fn refuses(&mut self) -> bool {
        self.add_checked().is_err()
    }

    fn numbers(&mut self) -> [u64; 3] {
        [
            u64::from(self.handles()),
            self.registered() as u64,
            self.wakes_ready() as u64,
        ]
    }

    fn goes_on(&mut self) -> bool {
        self.leave_checked();
        self.add_checked().is_ok()
    }
}

/// A bounded channel with as many senders as it may have.
impl AtItsEnd for BoundedCore<u64, u64> {
    fn refuses(&mut self) -> bool {
        self.add_sender_checked().is_err()
    }

    fn numbers(&mut self) -> [u64; 3] {
        [
            self.senders() as u64,
            self.queue_len() as u64,
            self.wakes_ready() as u64,
        ]
    }

    fn goes_on(&mut self) -> bool {
        self.end_sender_checked();
        self.add_sender_checked().is_ok()
    }
}

/// An unbounded channel with as many senders as it may have.
impl AtItsEnd for UnboundedCore<u64, u64> {
    fn refuses(&mut self) -> bool {
        self.add_sender_checked().is_err()
    }

    fn numbers(&mut self) -> [u64; 3] {
        [
            self.senders() as u64,
            u64::from(self.is_waiting()),
            self.wakes_ready() as u64,
        ]
    }

    fn goes_on(&mut self) -> bool {
        self.end_sender_checked();
        self.add_sender_checked().is_ok()
    }
}

/// A barrier in its last round, and who has arrived there.
#[derive(Drop)]
pub(crate) struct LastRound {
    pub(crate) barrier: BarrierCore<u64>,
    pub(crate) first: BarrierWait,
}

impl AtItsEnd for LastRound {
    fn refuses(&mut self) -> bool {
        let _ = self.barrier.poll_checked(&mut self.first, 10);
        let second = self.barrier.poll_checked(&mut BarrierWait::new(), 11);
        matches!(second, Err(BarrierFault::Overflow(11)))
    }

    fn numbers(&mut self) -> [u64; 3] {
        let _ = self.barrier.poll_checked(&mut self.first, 10);
        [
            self.barrier.registered() as u64,
            self.barrier.wakes_ready() as u64,
            0,
        ]
    }

    fn goes_on(&mut self) -> bool {
        let first = self.barrier.poll_checked(&mut self.first, 12);
        matches!(first, Ok(Poll::Pending))
    }
}

/// A broadcast channel with one position left, and a receiver there.
#[derive(Drop)]
pub(crate) struct LastMessage {
    pub(crate) channel: BroadcastCore<u64, u64>,
    pub(crate) cursor: Cursor,
}

impl AtItsEnd for LastMessage {
    fn refuses(&mut self) -> bool {
        matches!(self.channel.send(8), Err(SendRefused(8)))
    }

    fn numbers(&mut self) -> [u64; 3] {
        [
            self.channel.tail(),
            self.channel.senders() as u64,
            self.channel.wakes_ready() as u64,
        ]
    }

    fn goes_on(&mut self) -> bool {
        matches!(self.channel.try_recv_checked(&mut self.cursor), Ok(7))
    }
}

/// An admission of one permit that has no number for who waits, and an acquire of it.
#[derive(Drop)]
pub(crate) struct LastSequence {
    pub(crate) core: FairCore<u64, u64, Collides>,
    pub(crate) key: SharedKey<u64>,
    pub(crate) acquire: ShareAcquire<u64>,
}

impl LastSequence {
    /// Takes the permit, and tells whether it was free.
    pub(crate) fn takes(&mut self) -> bool {
        matches!(self.core.try_acquire(&self.key), Ok(true))
    }
}

impl AtItsEnd for LastSequence {
    fn refuses(&mut self) -> bool {
        let polled = self.core.poll_checked(&mut self.acquire, 11);
        matches!(polled, Err(ShareFault::Overflow(11)))
    }

    fn numbers(&mut self) -> [u64; 3] {
        [
            self.core.available_permits() as u64,
            self.core.num_waiters() as u64,
            self.core.wakes_ready() as u64,
        ]
    }

    fn goes_on(&mut self) -> bool {
        self.core.release_checked(&self.key);
        let polled = self.core.poll_checked(&mut self.acquire, 12);
        matches!(polled, Ok(Poll::Ready(())))
    }
}
