use crate::play::Reply;
use crate::play::Reply::{Back, Done, No, Pending, Value, Yes};
use mea_base::Poll;
use mea_meet_core::{BarrierCore, BarrierFault, BarrierWait, BarrierWaitResult};
use mea_test_support::{Plays, differs_at};
use std::alloc::Global;
use std::mem;

type Barrier = BarrierCore<u64>;

// A call of a barrier.
#[derive(Clone, Copy)]
enum Call {
    // Polls a further wait, by the call that asks for one that may be polled.
    Arrive(u64),
    Poll(u64),
    IsAllowed,
    End,
    WakesReady,
    Wake,
}

// A barrier and a wait.
#[derive(Drop)]
struct Room {
    barrier: Barrier,
    wait: BarrierWait,
}

impl Room {
    fn new(barrier: Barrier) -> Room {
        Room {
            barrier,
            wait: BarrierWait::new(),
        }
    }
}

impl Plays for Room {
    type Call = Call;

    type Reply = Reply;

    fn reply(&mut self, call: Call) -> Option<Reply> {
        let (barrier, wait) = (&mut self.barrier, &mut self.wait);
        match call {
            Call::Arrive(waker) => arrived(barrier.poll(&mut BarrierWait::new(), waker)),
            Call::Poll(waker) => arrived(barrier.poll_checked(wait, waker)),
            Call::IsAllowed => Some(Reply::whether(barrier.poll_allowed(wait))),
            Call::End => {
                barrier.end_checked(mem::replace(wait, BarrierWait::new()));
                Some(Done)
            }
            Call::WakesReady => Some(Value(barrier.wakes_ready() as u64)),
            Call::Wake => Some(Reply::found(barrier.next_wake())),
        }
    }
}

// Whether an arrival leads, or that its waker comes back; None is want of memory.
fn arrived(polled: Result<Poll<BarrierWaitResult>, BarrierFault<u64>>) -> Option<Reply> {
    match polled {
        Ok(Poll::Ready(result)) => Some(Reply::whether(result.is_leader())),
        Ok(Poll::Pending) => Some(Pending),
        Err(BarrierFault::Overflow(waker)) => Some(Back(waker)),
        Err(BarrierFault::NoMemory(_)) => None,
    }
}

// The place of the first call of a barrier of so many that tells something else.
fn differs(alloc: Global, n: u32, script: &[(Call, Reply)]) -> Option<usize> {
    differs_at(Room::new(BarrierCore::new(alloc, n)), script)
}

// With memory at hand, no call answers that there is none. Of each two arrivals the second leads and wakes the first, whose
// wait has ended meanwhile.
const ARRIVALS: &[(Call, Reply)] = &[
    (Call::Poll(10), Pending),
    (Call::End, Done),
    (Call::WakesReady, Value(0)),
    (Call::Poll(11), Yes),
    (Call::End, Done),
    (Call::WakesReady, Value(1)),
    (Call::Poll(12), Pending),
    (Call::End, Done),
    (Call::WakesReady, Value(1)),
    (Call::Poll(13), Yes),
    (Call::End, Done),
    (Call::WakesReady, Value(2)),
    (Call::Wake, Value(10)),
    (Call::Wake, Value(12)),
    (Call::Arrive(14), Pending),
];

#[test]
fn arrivals(rt: HostRuntime) {
    assert_eq!(rt; differs(rt.alloc(), 2, ARRIVALS), None);
}

// Who waited is ready after the round, without leading; 0 counts as 1.
const ROUNDS: &[(Call, Reply)] = &[
    (Call::Poll(10), Pending),
    (Call::Poll(11), Pending),
    (Call::Arrive(12), Yes),
    (Call::Wake, Value(11)),
    (Call::Poll(13), No),
    (Call::IsAllowed, No),
];

const ALONE: &[(Call, Reply)] = &[(Call::Arrive(14), Yes)];

#[test]
fn rounds(rt: HostRuntime) {
    assert_eq!(rt; differs(rt.alloc(), 2, ROUNDS), None);
    assert_eq!(rt; differs(rt.alloc(), 0, ALONE), None);
}

// The arrival that would complete the last round is refused, and its waker comes back.
const LAST_ROUND: &[(Call, Reply)] = &[(Call::Arrive(10), Pending), (Call::Arrive(11), Back(11))];

fn differs_in_the_last_round(alloc: Global, script: &[(Call, Reply)]) -> Option<usize> {
    differs_at(Room::new(BarrierCore::at_round(alloc, 2, u64::MAX)), script)
}

#[test]
fn last_round(rt: HostRuntime) {
    assert_eq!(rt; differs_in_the_last_round(rt.alloc(), LAST_ROUND), None);
}
