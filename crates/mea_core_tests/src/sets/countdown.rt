use crate::play::Reply;
use crate::play::Reply::{Done, No, Pending, Value};
use mea_sets::Countdown;
use mea_test_support::{Plays, differs_at};
use std::alloc::Global;

// A call of a count, each poll of a further wait.
#[derive(Clone, Copy)]
enum Call {
    Poll(u64),
    Increment,
    Decrement(u32),
    Count,
    WakesReady,
    Wake,
}

// A count.
#[derive(Drop)]
struct Room {
    count: Countdown<u64>,
}

impl Plays for Room {
    type Call = Call;

    type Reply = Reply;

    fn reply(&mut self, call: Call) -> Option<Reply> {
        let count = &mut self.count;
        match call {
            Call::Poll(waker) => Reply::polled(count.poll(&mut None, waker)),
            Call::Increment => Some(Reply::whether(incremented(count)?)),
            Call::Decrement(n) => {
                count.decrement(n);
                Some(Done)
            }
            Call::Count => Some(Value(u64::from(count.count()))),
            Call::WakesReady => Some(Value(count.wakes_ready() as u64)),
            Call::Wake => Some(Reply::found(count.next_wake())),
        }
    }
}

// Whether a count that has not ended takes one more.
fn incremented(count: &mut Countdown<u64>) -> Option<bool> {
    if count.count() > 0 {
        Some(count.increment(1).is_ok())
    } else {
        None
    }
}

// With memory at hand, no poll answers that there is none. A count ends once, and wakes in the order of the registrations.
const COUNTS: &[(Call, Reply)] = &[
    (Call::Increment, No),
    (Call::Count, Value(4_294_967_295)),
    (Call::Poll(10), Pending),
    (Call::Poll(11), Pending),
    (Call::Decrement(1), Done),
    (Call::Count, Value(4_294_967_294)),
    (Call::WakesReady, Value(0)),
    (Call::Decrement(u32::MAX), Done),
    (Call::Count, Value(0)),
    (Call::WakesReady, Value(2)),
    (Call::Decrement(1), Done),
    (Call::Count, Value(0)),
    (Call::WakesReady, Value(2)),
    (Call::Wake, Value(10)),
    (Call::Wake, Value(11)),
    (Call::Poll(12), Done),
];

fn differs(alloc: Global) -> Option<usize> {
    let count = Countdown::new(alloc, u32::MAX);
    differs_at(Room { count }, COUNTS)
}

#[test]
fn counts(rt: HostRuntime) {
    assert_eq!(rt; differs(rt.alloc()), None);
}
