//! Those of the crowd who want a value that is computed once.
use crate::keyed::{Flights, Map};
use crate::makes::Makes;
use crate::tasks::{Inits, computing};
use crate::tickets::{Kind, Ticket};
use futures::task::Poll;
use futures::test::MockTask;
use mea::once::{CellClaim, CellClaiming, Once, OnceCell, OnceClaim, OnceClaiming};
use mea::{Claimed, End, ReadyValue, Waits};
use mea_futures::{Bell, wait};
use std::alloc::{AllocGlobal, Global};
use std::process::Abort;
use std::sync::Wait;
use std::sync::atomic::AtomicU64;
use std::sync::atomic::Ordering::SeqCst;

/// What they share.
#[derive(Drop)]
pub(crate) struct Keeps {
    cell: OnceCell<u64, Bell>,
    once: Once<Bell>,
    pub(crate) map: Map,
    pub(crate) flights: Flights,
    filled: AtomicU64,
    called: AtomicU64,
    pub(crate) mapped: AtomicU64,
    pub(crate) flown: AtomicU64,
}

impl Keeps {
    /// Nothing computed.
    pub(crate) fn new(alloc: Global) -> Self {
        Keeps {
            cell: OnceCell::new(alloc),
            once: Once::new(alloc),
            map: Map::new(alloc),
            flights: Flights::new(alloc),
            filled: AtomicU64::new(0),
            called: AtomicU64::new(0),
            mapped: AtomicU64::new(0),
            flown: AtomicU64::new(0),
        }
    }

    /// Whether the cell is full, the call was made, and each of three keys has its value, each of them computed once.
    pub(crate) fn are_kept<R: Wait>(&self, rt: &R) -> bool {
        for key in 0..3u64 {
            if self.map.get(rt, &key) != Ok(Some(key)) {
                return false;
            }
        }
        self.cell.get() == Some(&9)
            && self.once.is_completed(rt)
            && self.filled.load(SeqCst) == 1
            && self.called.load(SeqCst) == 1
            && self.mapped.load(SeqCst) == 3
    }

    /// Whether nobody computes this key of the group any more, so that a further call has its turn at once.
    pub(crate) fn is_landed<R: Wait + AllocGlobal>(
        &self,
        rt: &R,
        task: &MockTask,
        key: u64,
    ) -> bool {
        has_turn(rt, task, self.flights.claim(key))
    }
}

// Whether a wait for a claim has its turn at its first poll. Then the turn is passed on.
fn has_turn<'a, R: Wait + AllocGlobal + 'a, F: Waits<Bell, Claimed<V, C>>, V: Drop, C: End>(
    rt: &'a R,
    task: &MockTask,
    claiming: F,
) -> bool
    requires { F.can_poll claiming }
{
    let Ok(mut waiting) = wait(rt, rt.alloc(), claiming) else {
        return false;
    };
    match task.poll(&mut waiting) {
        Poll::Ready(Ok(Claimed::Mine(claim))) => {
            claim.end(rt);
            true
        }
        Poll::Ready(Ok(Claimed::There(_))) => false,
        Poll::Ready(Err(_)) => false,
        Poll::Pending => false,
    }
}

/// One that waits for the value of the cell.
pub(crate) type Fills<'a, R> = Inits<
    'a,
    R,
    CellClaiming<'a, u64, Bell>,
    &'a u64,
    CellClaim<'a, u64, Bell>,
    u64,
    ReadyValue<&'a u64>,
>;

/// One that waits until a call was made.
pub(crate) type Calls<'a, R> = Inits<
    'a,
    R,
    OnceClaiming<'a, Bell>,
    (),
    OnceClaim<'a, Bell>,
    (),
    ReadyValue<()>,
>;

/// Makes those who fill the cell.
#[derive(Drop)]
pub(crate) struct Filling<'a, R: Wait> {
    pub(crate) rt: &'a R,
    pub(crate) keeps: &'a Keeps,
}

impl<'a, R: Wait + AllocGlobal + Abort> Makes<Fills<'a, R>> for Filling<'a, R> {
    fn make(&mut self, ticket: Ticket) -> Option<Fills<'a, R>> {
        match ticket.kind {
            Kind::Fills => {
                let keeps = self.keeps;
                Some(computing(self.rt, keeps.cell.claim(), 9, &keeps.filled))
            }
            _ => None,
        }
    }
}

/// Makes those who make the call.
#[derive(Drop)]
pub(crate) struct Calling<'a, R: Wait> {
    pub(crate) rt: &'a R,
    pub(crate) keeps: &'a Keeps,
}

impl<'a, R: Wait + AllocGlobal + Abort> Makes<Calls<'a, R>> for Calling<'a, R> {
    fn make(&mut self, ticket: Ticket) -> Option<Calls<'a, R>> {
        match ticket.kind {
            Kind::Calls => {
                let keeps = self.keeps;
                Some(computing(self.rt, keeps.once.claim(), (), &keeps.called))
            }
            _ => None,
        }
    }
}
