use crate::play::Reply;
use crate::play::Reply::{Done, No, Nothing, Pending, Value, Yes};
use mea_meet_core::{GroupWait, LatchWait, ShutdownCore};
use mea_test_support::{Plays, differs_at};
use std::alloc::Global;

// A call of a shutdown, each poll of a further wait.
#[derive(Clone, Copy)]
enum Call {
    // By the calls that ask for a wait that may be polled.
    AwaitSignal(u64),
    AwaitReceivers(u64),
    PollSignal(u64),
    PollReceivers(u64),
    EndReceiver,
    Receivers,
    Signal,
    IsShutdown,
    Wake,
}

// A shutdown.
#[derive(Drop)]
struct Room {
    shutdown: ShutdownCore<u64>,
}

impl Plays for Room {
    type Call = Call;

    type Reply = Reply;

    fn reply(&mut self, call: Call) -> Option<Reply> {
        let shutdown = &mut self.shutdown;
        let mut latch = LatchWait::new();
        let mut group = GroupWait::new();
        match call {
            Call::AwaitSignal(waker) => Reply::polled(shutdown.poll_signal(&mut latch, waker)),
            Call::AwaitReceivers(waker) => Reply::polled(shutdown.poll_receivers(
                &mut group, waker,
            )),
            Call::PollSignal(waker) => Reply::polled(shutdown.poll_signal_checked(
                &mut latch, waker,
            )),
            Call::PollReceivers(waker) => {
                Reply::polled(shutdown.poll_receivers_checked(&mut group, waker))
            }
            Call::EndReceiver => {
                shutdown.end_receiver_checked();
                Some(Done)
            }
            Call::Receivers => Some(Value(u64::from(shutdown.receivers()))),
            Call::Signal => {
                shutdown.signal();
                Some(Done)
            }
            Call::IsShutdown => Some(Reply::whether(shutdown.is_shutdown_now())),
            Call::Wake => Some(Reply::found(shutdown.next_wake())),
        }
    }
}

// With memory at hand, no poll answers that there is none. The signal and the end of the receivers are apart, and wakers of
// both keep their order.
const SHUTDOWN: &[(Call, Reply)] = &[
    (Call::AwaitSignal(6), Pending),
    (Call::PollSignal(7), Pending),
    (Call::AwaitReceivers(8), Pending),
    (Call::PollReceivers(9), Pending),
    (Call::Receivers, Value(1)),
    (Call::EndReceiver, Done),
    (Call::Receivers, Value(0)),
    (Call::IsShutdown, No),
    (Call::Signal, Done),
    (Call::Signal, Done),
    (Call::IsShutdown, Yes),
    (Call::PollReceivers(10), Done),
    (Call::Wake, Value(8)),
    (Call::Wake, Value(9)),
    (Call::Wake, Value(6)),
    (Call::Wake, Value(7)),
    (Call::Wake, Nothing),
];

fn differs(alloc: Global) -> Option<usize> {
    let shutdown = ShutdownCore::new(alloc);
    differs_at(Room { shutdown }, SHUTDOWN)
}

#[test]
fn shutdown(rt: HostRuntime) {
    assert_eq!(rt; differs(rt.alloc()), None);
}
