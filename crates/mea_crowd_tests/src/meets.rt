//! Those of the crowd who meet: at a latch, at a barrier, and at a shutdown.
ghost use Rattle.std.specs.Prelude.{IsSome};

use crate::makes::{Makes, Member};
use crate::tasks::{Awaits, share};
use crate::tickets::{Kind, Ticket};
use futures::Future;
use futures::task::{Context, Poll};
use mea::barrier::{Barrier, BarrierWait, BarrierWaitResult};
use mea::latch::{Latch, OwnedLatchWait};
use mea::shutdown::{OwnedSignal, ShutdownRecv, ShutdownSend};
use mea::{PollFault, shutdown};
use mea_futures::{Bell, Kept, Waiting, wait};
use std::alloc::{AllocError, AllocGlobal, Global};
use std::process::Abort;
use std::sync::atomic::AtomicU64;
use std::sync::atomic::Ordering::SeqCst;
use std::sync::{Arc, Wait};

/// What they share.
#[derive(Drop)]
pub(crate) struct Meets {
    latch: Arc<Latch<Bell>>,
    barrier: Barrier<Bell>,
    met: AtomicU64,
    led: AtomicU64,
}

// Of the tasks with numbers below this, how many meet at the barrier and are polled at least once.
fn arrivals(numbers: u64) -> u32 {
    let mut arrivals = 0u32;
    for number in 0..numbers {
        if Ticket::of(number).arrives() {
            arrivals = arrivals.saturating_add(1);
        }
    }
    arrivals
}

impl Meets {
    /// A latch of one, and a barrier for all who come to it of the tasks with numbers below this.
    pub(crate) fn new(alloc: Global, numbers: u64) -> Result<Self, AllocError> {
        Ok(Meets {
            latch: Arc::new(alloc, Latch::new(alloc, 1))?,
            barrier: Barrier::new(alloc, arrivals(numbers)),
            met: AtomicU64::new(0),
            led: AtomicU64::new(0),
        })
    }

    /// Whether the latch is open.
    pub(crate) fn is_open<R: Wait>(&self, rt: &R) -> bool {
        self.latch.count(rt) == 0
    }

    /// How many have met at the barrier, and how many of them led.
    pub(crate) fn counts(&self) -> (u64, u64) {
        (self.met.load(SeqCst), self.led.load(SeqCst))
    }
}

/// One that waits until a latch is open.
pub(crate) type Passes<'a, R> = Awaits<Waiting<'a, R, OwnedLatchWait<Bell>, ()>>;

/// A task that opens the latch.
#[derive(Drop)]
pub(crate) struct Opens<'a, R: Wait> {
    rt: &'a R,
    latch: &'a Latch<Bell>,
}

impl<'a, R: Wait> Future for Opens<'a, R> {
    type Output = ();

    fn poll(&mut self, _cx: &mut Context<'_>) -> Poll<()> {
        self.latch.count_down(self.rt);
        Poll::Ready(())
    }
}

/// A task that meets others at the barrier.
#[derive(Drop)]
pub(crate) struct Gathers<'a, F: Future> {
    waiting: F,
    met: &'a AtomicU64,
    led: &'a AtomicU64,
}

impl<'a, F: Future<Output = Result<BarrierWaitResult, PollFault>>> Future for Gathers<'a, F> {
    type Output = ();

    ghost can_poll = { λ a. F.can_poll a.waiting };

    fn poll(&mut self, cx: &mut Context<'_>) -> Poll<()> {
        match self.waiting.poll(cx) {
            Poll::Ready(Ok(round)) => {
                self.met.fetch_add(1, SeqCst);
                if round.is_leader() {
                    self.led.fetch_add(1, SeqCst);
                }
                Poll::Ready(())
            }
            Poll::Ready(Err(_)) => Poll::Ready(()),
            Poll::Pending => Poll::Pending,
        }
    }
}

/// One that waits there.
pub(crate) type Arrives<'a, R> = Gathers<
    'a,
    Waiting<'a, R, BarrierWait<'a, Bell>, BarrierWaitResult>,
>;

/// A task that stops where it is asked to, and has a handle of the shutdown until it ends.
#[derive(Drop)]
pub(crate) struct Stops<'a, R: Wait> {
    signal: Waiting<'a, R, OwnedSignal<Bell>, ()>,
    receiver: Kept<'a, R, ShutdownRecv<Bell>>,
}

impl<'a, R: Wait> Future for Stops<'a, R> {
    type Output = ();

    ghost can_poll = { λ s. IsSome s.signal.wait };

    fn poll(&mut self, cx: &mut Context<'_>) -> Poll<()> {
        match self.signal.poll(cx) {
            Poll::Ready(_) => Poll::Ready(()),
            Poll::Pending => Poll::Pending,
        }
    }
}

/// A task that asks for the shutdown, and waits for all who stop.
#[derive(Drop)]
pub(crate) struct Asks<'a, R: Wait, F: Future> {
    rt: &'a R,
    sender: &'a ShutdownSend<Bell>,
    ended: F,
}

impl<'a, R: Wait, O: Drop, F: Future<Output = O>> Future for Asks<'a, R, F> {
    type Output = ();

    ghost can_poll = { λ s. F.can_poll s.ended };

    fn poll(&mut self, cx: &mut Context<'_>) -> Poll<()> {
        self.sender.shutdown(self.rt);
        match self.ended.poll(cx) {
            Poll::Ready(_) => Poll::Ready(()),
            Poll::Pending => Poll::Pending,
        }
    }
}

/// One that waits for them.
pub(crate) type Shuts<'a, R> = Asks<'a, R, Waiting<'a, R, shutdown::Wait<Bell>, ()>>;

/// Makes those who wait at the latch, and the one who opens it.
#[derive(Drop)]
pub(crate) struct Passing<'a, R: Wait> {
    pub(crate) rt: &'a R,
    pub(crate) meets: &'a Meets,
}

impl<'a, R: Wait + AllocGlobal + Abort> Passing<'a, R> {
    // One that waits and was never polled.
    fn passing(&self) -> Passes<'a, R>
        ensures { IsSome result.awaited.wait }
    {
        let rt = self.rt;
        let passed = share(rt, &self.meets.latch).wait_owned();
        Awaits {
            awaited: wait(rt, rt.alloc(), passed).expect(rt, "memory"),
        }
    }
}

impl<'a, R: Wait + AllocGlobal + Abort> Makes<Member<Passes<'a, R>, Opens<'a, R>>>
    for Passing<'a, R> {
    fn make(&mut self, ticket: Ticket) -> Option<Member<Passes<'a, R>, Opens<'a, R>>> {
        match ticket.kind {
            Kind::Passes => Some(Member::First(self.passing())),
            Kind::Opens => {
                let rt = self.rt;
                let meets = self.meets;
                let latch = &*meets.latch;
                Some(Member::Other(Opens { rt, latch }))
            }
            _ => None,
        }
    }
}

/// Makes those who meet at the barrier.
#[derive(Drop)]
pub(crate) struct Arriving<'a, R: Wait> {
    pub(crate) rt: &'a R,
    pub(crate) meets: &'a Meets,
}

impl<'a, R: Wait + AllocGlobal + Abort> Makes<Arrives<'a, R>> for Arriving<'a, R> {
    fn make(&mut self, ticket: Ticket) -> Option<Arrives<'a, R>> {
        match ticket.kind {
            Kind::Arrives => {}
            _ => return None,
        }
        let rt = self.rt;
        let meets = self.meets;
        let waiting = wait(rt, rt.alloc(), meets.barrier.wait()).expect(rt, "memory");
        Some(Gathers {
            waiting,
            met: &meets.met,
            led: &meets.led,
        })
    }
}

/// Makes those who stop where they are asked to, and the one who asks.
#[derive(Drop)]
pub(crate) struct Stopping<'a, R: Wait> {
    pub(crate) rt: &'a R,
    pub(crate) sender: &'a ShutdownSend<Bell>,
    pub(crate) receiver: Kept<'a, R, ShutdownRecv<Bell>>,
}

impl<'a, R: Wait + AllocGlobal + Abort> Stopping<'a, R> {
    // One that stops and was never polled.
    fn stopping(&self) -> Stops<'a, R>
        ensures { IsSome result.signal.wait }
    {
        let rt = self.rt;
        let receiver = self.receiver.get().clone_handle(rt).expect(rt, "memory");
        let receiver = Kept::new(rt, receiver);
        let signal = receiver.get().is_shutdown_owned().expect(rt, "memory");
        let signal = wait(rt, rt.alloc(), signal).expect(rt, "memory");
        Stops { signal, receiver }
    }

    // One that asks and was never polled.
    fn shutting(&self) -> Shuts<'a, R>
        ensures { IsSome result.ended.wait }
    {
        let rt = self.rt;
        let sender = self.sender;
        let ended = sender.clone_handle().expect(rt, "memory").await_shutdown();
        let ended = wait(rt, rt.alloc(), ended).expect(rt, "memory");
        Asks { rt, sender, ended }
    }
}

impl<'a, R: Wait + AllocGlobal + Abort> Makes<Member<Stops<'a, R>, Shuts<'a, R>>>
    for Stopping<'a, R> {
    fn make(&mut self, ticket: Ticket) -> Option<Member<Stops<'a, R>, Shuts<'a, R>>> {
        match ticket.kind {
            Kind::Stops => Some(Member::First(self.stopping())),
            Kind::Shuts => Some(Member::Other(self.shutting())),
            _ => None,
        }
    }
}
