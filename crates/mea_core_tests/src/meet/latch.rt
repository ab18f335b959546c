use crate::play::Reply;
use crate::play::Reply::{Back, Done, Pending, Value};
use mea_meet_core::{LatchCore, LatchWait};
use mea_test_support::{Plays, differs_at};
use std::alloc::Global;
use std::mem;

// A call of a latch.
#[derive(Clone, Copy)]
enum Call {
    // Polls a further wait, by the call that asks for one that may be polled.
    Await(u64),
    Poll(u64),
    Arrive(u32),
    CountDown,
    TryWait,
    Count,
    WakesReady,
    Wake,
    End,
}

// A latch and a wait.
#[derive(Drop)]
struct Room {
    latch: LatchCore<u64>,
    wait: LatchWait,
}

impl Plays for Room {
    type Call = Call;

    type Reply = Reply;

    fn reply(&mut self, call: Call) -> Option<Reply> {
        let (latch, wait) = (&mut self.latch, &mut self.wait);
        match call {
            Call::Await(waker) => Reply::polled(latch.poll(&mut LatchWait::new(), waker)),
            Call::Poll(waker) => Reply::polled(latch.poll_checked(wait, waker)),
            Call::TryWait => Some(tried(latch.try_wait())),
            Call::Count => Some(Value(u64::from(latch.count()))),
            Call::WakesReady => Some(Value(latch.wakes_ready() as u64)),
            Call::Wake => Some(Reply::found(latch.next_wake())),
            Call::Arrive(n) => {
                latch.arrive(n);
                Some(Done)
            }
            Call::CountDown => {
                latch.count_down();
                Some(Done)
            }
            Call::End => {
                latch.end_checked(mem::replace(wait, LatchWait::new()));
                Some(Done)
            }
        }
    }
}

// How much is left, unless nothing is.
fn tried(tried: Result<(), u32>) -> Reply {
    match tried {
        Ok(()) => Done,
        Err(left) => Back(u64::from(left)),
    }
}

// With memory at hand, no poll answers that there is none. A latch falls to 0 and no further, and wakes once.
const LATCH: &[(Call, Reply)] = &[
    (Call::Poll(5), Pending),
    (Call::Await(6), Pending),
    (Call::Arrive(3), Done),
    (Call::TryWait, Back(7)),
    (Call::Arrive(3), Done),
    (Call::TryWait, Back(4)),
    (Call::Arrive(3), Done),
    (Call::TryWait, Back(1)),
    (Call::Arrive(3), Done),
    (Call::TryWait, Done),
    (Call::Arrive(3), Done),
    (Call::TryWait, Done),
    (Call::CountDown, Done),
    (Call::Count, Value(0)),
    (Call::WakesReady, Value(2)),
    (Call::Wake, Value(5)),
    (Call::Poll(7), Done),
    (Call::End, Done),
];

fn differs(alloc: Global) -> Option<usize> {
    let latch = LatchCore::new(alloc, 10);
    let wait = LatchWait::new();
    differs_at(Room { latch, wait }, LATCH)
}

#[test]
fn latch(rt: HostRuntime) {
    assert_eq!(rt; differs(rt.alloc()), None);
}
