use crate::play::Reply;
use crate::play::Reply::{Closed, Count, Disconnected, Done, Nothing, Pending, Value, Yes};
use mea_chan_core::{UnboundedCore, UnboundedError};
use mea_test_support::{Plays, differs_at};
use std::alloc::Global;

type Channel = UnboundedCore<u64, u64>;

#[derive(Clone, Copy)]
enum Call {
    Send(u64),
    TryRecv,
    PollRecv(u64),
    AddSender,
    EndSender,
    EndReceiver,
    Wake,
    WakesReady,
}

// A channel.
#[derive(Drop)]
struct Room {
    channel: Channel,
}

impl Room {
    fn new(alloc: Global) -> Room {
        Room {
            channel: UnboundedCore::new(alloc),
        }
    }
}

impl Plays for Room {
    type Call = Call;

    type Reply = Reply;

    fn reply(&mut self, call: Call) -> Option<Reply> {
        let channel = &mut self.channel;
        match call {
            Call::Send(message) => sent(channel.send(message)),
            Call::TryRecv => Some(Reply::received(channel.try_recv())),
            Call::PollRecv(waker) => Some(Reply::heard(channel.poll_recv(waker).ok()?)),
            Call::AddSender => Some(Reply::whether(channel.add_sender_checked().is_ok())),
            Call::EndSender => {
                channel.end_sender_checked();
                Some(Done)
            }
            Call::EndReceiver => Some(Reply::fallen(channel.end_receiver_checked())),
            Call::Wake => Some(Reply::found(channel.next_wake())),
            Call::WakesReady => Some(Count(channel.wakes_ready())),
        }
    }
}

fn sent(sent: Result<(), UnboundedError<u64>>) -> Option<Reply> {
    match sent {
        Ok(()) => Some(Done),
        Err(UnboundedError::Closed(message)) => Some(Closed(message)),
        Err(UnboundedError::NoMemory(_)) => None,
    }
}

const SCRIPTS: &[&[(Call, Reply)]] = &[
    // A receiver that waits is woken by the first message; what is sent after its end comes back.
    &[
        (Call::PollRecv(4), Pending),
        (Call::Send(1), Done),
        (Call::Wake, Value(4)),
        (Call::Send(2), Done),
        (Call::WakesReady, Count(0)),
        (Call::PollRecv(5), Value(1)),
        (Call::EndReceiver, Count(1)),
        (Call::Send(3), Closed(3)),
        (Call::TryRecv, Disconnected),
    ],
    // The waker of the last poll is woken, and that alone.
    &[
        (Call::PollRecv(4), Pending),
        (Call::PollRecv(5), Pending),
        (Call::Send(1), Done),
        (Call::Wake, Value(5)),
        (Call::Wake, Nothing),
    ],
    // The last sender's end wakes the receiver, who then learns that nothing comes any more.
    &[
        (Call::AddSender, Yes),
        (Call::PollRecv(10), Pending),
        (Call::EndSender, Done),
        (Call::Wake, Nothing),
        (Call::EndSender, Done),
        (Call::Wake, Value(10)),
        (Call::PollRecv(11), Disconnected),
    ],
    // A receiver that has ended is not ended again: its messages fell once, and all stays as it was.
    &[
        (Call::Send(1), Done),
        (Call::Send(2), Done),
        (Call::EndReceiver, Count(2)),
        (Call::EndReceiver, Nothing),
        (Call::Send(3), Closed(3)),
        (Call::TryRecv, Disconnected),
    ],
    // So does the waker of a receiver that waited: the end of the last sender wakes it.
    &[
        (Call::PollRecv(4), Pending),
        (Call::EndReceiver, Count(0)),
        (Call::EndReceiver, Nothing),
        (Call::WakesReady, Count(0)),
        (Call::EndSender, Done),
        (Call::EndReceiver, Nothing),
        (Call::Wake, Value(4)),
        (Call::Wake, Nothing),
        (Call::PollRecv(5), Disconnected),
    ],
];

// The place of the first call that tells something else.
fn differs(alloc: Global, script: &[(Call, Reply)]) -> Option<usize> {
    differs_at(Room::new(alloc), script)
}

#[test]
fn calls_of_an_unbounded_channel(rt: HostRuntime) {
    for script in SCRIPTS {
        assert_eq!(rt; differs(rt.alloc(), script), None);
    }
}

fn full_takes_a_sender(alloc: Global) -> bool {
    let mut full: Channel = UnboundedCore::at_senders(alloc, usize::MAX);
    full.add_sender_checked().is_ok()
}

#[test]
fn senders_have_an_end(rt: HostRuntime) {
    assert!(rt; !full_takes_a_sender(rt.alloc()));
}
