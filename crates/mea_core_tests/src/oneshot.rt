use crate::play::Reply;
use crate::play::Reply::{Closed, Disconnected, Done, Empty, No, Nothing, Pending, Value, Yes};
use mea_chan_core::{OneshotCore, SendError};
use mea_test_support::{Plays, differs_at};

#[derive(Clone, Copy)]
enum Call {
    Send(u64),
    TryRecv,
    PollRecv(u64),
    HasMessage,
    IsClosed,
    IsDisconnected,
    EndSender,
    EndReceiver,
    Wake,
}

// A channel.
#[derive(Drop)]
struct Room {
    channel: OneshotCore<u64, u64>,
}

impl Room {
    fn new() -> Room {
        Room {
            channel: OneshotCore::new(),
        }
    }
}

impl Plays for Room {
    type Call = Call;

    type Reply = Reply;

    fn reply(&mut self, call: Call) -> Option<Reply> {
        let channel = &mut self.channel;
        Some(match call {
            Call::Send(message) => match channel.send(message) {
                Ok(()) => Done,
                Err(SendError(message)) => Closed(message),
            },
            Call::TryRecv => Reply::received(channel.try_recv()),
            Call::PollRecv(waker) => Reply::heard(channel.poll_recv(waker)),
            Call::HasMessage => Reply::whether(channel.has_message()),
            Call::IsClosed => Reply::whether(channel.is_closed()),
            Call::IsDisconnected => Reply::whether(channel.is_disconnected()),
            Call::EndSender => {
                channel.end_sender_checked();
                Done
            }
            Call::EndReceiver => {
                channel.end_receiver_checked();
                Done
            }
            Call::Wake => Reply::found(channel.next_wake()),
        })
    }
}

const SCRIPTS: &[&[(Call, Reply)]] = &[
    // The message is given once, and the receiver is woken once.
    &[
        (Call::TryRecv, Empty),
        (Call::PollRecv(5), Pending),
        (Call::Send(6), Done),
        (Call::Wake, Value(5)),
        (Call::HasMessage, Yes),
        (Call::PollRecv(7), Value(6)),
        (Call::IsDisconnected, Yes),
        (Call::PollRecv(8), Disconnected),
        (Call::Send(9), Closed(9)),
        (Call::Wake, Nothing),
    ],
    // Either end may go first.
    &[
        (Call::EndReceiver, Done),
        (Call::IsClosed, Yes),
        (Call::Send(3), Closed(3)),
    ],
    &[
        (Call::PollRecv(5), Pending),
        (Call::EndSender, Done),
        (Call::Wake, Value(5)),
        (Call::TryRecv, Disconnected),
    ],
    &[
        (Call::Send(4), Done),
        (Call::EndReceiver, Done),
        (Call::HasMessage, No),
    ],
];

// The place of the first call that tells something else.
fn differs(script: &[(Call, Reply)]) -> Option<usize> {
    differs_at(Room::new(), script)
}

#[test]
fn calls_of_a_oneshot_channel(rt: HostRuntime) {
    for script in SCRIPTS {
        assert_eq!(rt; differs(script), None);
    }
}
