use crate::shot::Reply::{Back, Disconnected, Done, Empty, No, Pending, Times, Value, Yes};
use mea_base::Poll;
use mea_shot::{Plain, Receiver, Recv, RecvError, SendError, Sender, TryRecvError, channel};
use mea_test_support::{Bell, Count, Plays, count, differs_at, rung};
use std::alloc::Global;
use std::fmt::Display;
use std::process::Abort;
use std::sync::Arc;

/// The two ends of a channel for one number.
pub(crate) type Ends = (Sender<Plain<u64>, Bell>, Receiver<Plain<u64>, Bell>);

/// A new channel.
pub(crate) fn ends(rt: &(impl Abort + AllocGlobal)) -> Ends {
    channel(rt.alloc()).expect(rt, "memory")
}

/// Sends the number: the number that came back, if the send was refused.
pub(crate) fn send(sender: Sender<Plain<u64>, Bell>, number: u64) -> Option<u64> {
    match sender.send(Plain(number)) {
        Ok(sent) => {
            sent.end();
            None
        }
        Err(unsent) => {
            let SendError(Plain(number)) = unsent.into_error();
            Some(number)
        }
    }
}

// A call of a channel. Those of a sender and of a receiver are of the one that is there.
#[derive(Clone, Copy)]
enum Call {
    Send(u64),
    SendAndEnd(u64),
    /// Whether the sender knows that its receiver has ended.
    IsShut,
    EndSender,
    DropSender,
    TryRecv,
    HasMessage,
    IsClosed,
    EndReceiver,
    IntoFuture,
    Poll,
    EndFuture,
    DropFuture,
    /// How often the receiver was woken.
    Rung,
}

#[derive(Clone, Copy, PartialEq, Eq)]
enum Reply {
    Done,
    Yes,
    No,
    // The number comes back.
    Back(u64),
    Value(u64),
    // How often the receiver was woken.
    Times(u64),
    Pending,
    Empty,
    Disconnected,
}

impl Reply {
    fn whether(yes: bool) -> Reply {
        if yes { Yes } else { No }
    }

    // What a send tells, by the number that came back.
    fn of_send(back: Option<u64>) -> Reply {
        match back {
            Some(number) => Back(number),
            None => Done,
        }
    }
}

// A channel, whose receiver may have become a future, and how often that was woken.
#[derive(Drop)]
struct Room {
    sender: Option<Sender<Plain<u64>, Bell>>,
    receiver: Option<Receiver<Plain<u64>, Bell>>,
    recv: Option<Recv<Plain<u64>, Bell>>,
    rung: Count,
}

impl Room {
    fn new(rt: &(impl Abort + AllocGlobal)) -> Room {
        let (sender, receiver) = ends(rt);
        Room {
            sender: Some(sender),
            receiver: Some(receiver),
            recv: None,
            rung: count(rt.alloc()).expect(rt, "memory"),
        }
    }

    fn poll(&mut self) -> Option<Reply> {
        let bell = Bell(Arc::try_clone(&self.rung).ok()?);
        Some(poll_told(self.recv.as_mut()?, bell))
    }

    fn into_future(&mut self) -> Option<Reply> {
        self.recv = Some(self.receiver.take()?.into_future());
        Some(Done)
    }
}

impl Plays for Room {
    type Call = Call;

    type Reply = Reply;

    fn reply(&mut self, call: Call) -> Option<Reply> {
        match call {
            Call::Send(_)
            | Call::SendAndEnd(_)
            | Call::IsShut
            | Call::EndSender
            | Call::DropSender => { sender_told(&mut self.sender, call) }
            Call::TryRecv | Call::HasMessage | Call::IsClosed | Call::EndReceiver => {
                receiver_told(&mut self.receiver, call)
            }
            Call::IntoFuture => self.into_future(),
            Call::Poll => self.poll(),
            Call::EndFuture | Call::DropFuture => future_ended(self.recv.take()?, call),
            Call::Rung => Some(Times(rung(&self.rung))),
        }
    }
}

fn sender_told(place: &mut Option<Sender<Plain<u64>, Bell>>, call: Call) -> Option<Reply> {
    if let Call::IsShut = call {
        return Some(Reply::whether(place.as_mut()?.is_closed()));
    }
    let sender = place.take()?;
    match call {
        Call::Send(number) => Some(Reply::of_send(send(sender, number))),
        Call::SendAndEnd(number) => Some(sent_and_ended(sender, number)),
        Call::EndSender => {
            sender.end();
            Some(Done)
        }
        _ => {
            drop(sender);
            Some(Done)
        }
    }
}

fn sent_and_ended(sender: Sender<Plain<u64>, Bell>, number: u64) -> Reply {
    match sender.send_and_end(Plain(number)) {
        Ok(()) => Done,
        Err(SendError(Plain(number))) => Back(number),
    }
}

fn receiver_told(place: &mut Option<Receiver<Plain<u64>, Bell>>, call: Call) -> Option<Reply> {
    match call {
        Call::TryRecv => Some(try_told(place.as_mut()?)),
        Call::HasMessage => Some(Reply::whether(place.as_mut()?.has_message())),
        Call::IsClosed => Some(Reply::whether(place.as_mut()?.is_closed())),
        _ => {
            place.take()?.end();
            Some(Done)
        }
    }
}

fn try_told(receiver: &mut Receiver<Plain<u64>, Bell>) -> Reply {
    match receiver.try_recv() {
        Ok(Plain(number)) => Value(number),
        Err(TryRecvError::Empty) => Empty,
        Err(TryRecvError::Disconnected) => Disconnected,
    }
}

fn poll_told(recv: &mut Recv<Plain<u64>, Bell>, bell: Bell) -> Reply {
    match recv.poll(bell) {
        Poll::Ready(Ok(Plain(number))) => Value(number),
        Poll::Ready(Err(RecvError::Disconnected)) => Disconnected,
        Poll::Pending => Pending,
    }
}

fn future_ended(recv: Recv<Plain<u64>, Bell>, call: Call) -> Option<Reply> {
    if let Call::EndFuture = call {
        recv.end();
    } else {
        drop(recv);
    }
    Some(Done)
}

type Script = &'static [(Call, Reply)];

const ROWS: &[Script] = &[
    // A receiver that waits is woken once, and the message comes once.
    &[
        (Call::IntoFuture, Done),
        (Call::Poll, Pending),
        (Call::Send(6), Done),
        (Call::Rung, Times(1)),
        (Call::Poll, Value(6)),
        (Call::Poll, Disconnected),
        (Call::Rung, Times(1)),
        (Call::EndFuture, Done),
    ],
    // A send to a receiver that has ended comes back.
    &[
        (Call::IsShut, No),
        (Call::EndReceiver, Done),
        (Call::IsShut, Yes),
        (Call::Send(3), Back(3)),
    ],
    // It comes back also where its waker was published.
    &[
        (Call::IntoFuture, Done),
        (Call::Poll, Pending),
        (Call::Poll, Pending),
        (Call::EndFuture, Done),
        (Call::Send(4), Back(4)),
        (Call::Rung, Times(0)),
    ],
    // The end of a sender is told.
    &[
        (Call::TryRecv, Empty),
        (Call::EndSender, Done),
        (Call::TryRecv, Disconnected),
        (Call::EndReceiver, Done),
    ],
    // It wakes a receiver that waits.
    &[
        (Call::IntoFuture, Done),
        (Call::Poll, Pending),
        (Call::EndSender, Done),
        (Call::Rung, Times(1)),
        (Call::Poll, Disconnected),
        (Call::EndFuture, Done),
    ],
    // A message is told before it is received, and the channel is closed after it.
    &[
        (Call::HasMessage, No),
        (Call::Send(4), Done),
        (Call::HasMessage, Yes),
        (Call::IsClosed, No),
        (Call::TryRecv, Value(4)),
        (Call::IsClosed, Yes),
        (Call::TryRecv, Disconnected),
        (Call::EndReceiver, Done),
    ],
    // A message that was sent before anyone looked comes by the first call, and once.
    &[
        (Call::Send(5), Done),
        (Call::TryRecv, Value(5)),
        (Call::TryRecv, Disconnected),
        (Call::EndReceiver, Done),
    ],
    &[
        (Call::Send(6), Done),
        (Call::IntoFuture, Done),
        (Call::Poll, Value(6)),
        (Call::EndFuture, Done),
        (Call::Rung, Times(0)),
    ],
];

#[test]
fn calls_of_a_channel(rt: HostRuntime) {
    for script in ROWS {
        assert_eq!(rt; differs_at(Room::new(&rt), script), None);
    }
}

// An end that is dropped is ended, and one call sends and spends.
const DROPS: &[Script] = &[
    &[(Call::DropSender, Done), (Call::TryRecv, Disconnected)],
    &[
        (Call::IntoFuture, Done),
        (Call::DropFuture, Done),
        (Call::SendAndEnd(4), Back(4)),
    ],
    &[(Call::SendAndEnd(5), Done), (Call::TryRecv, Value(5))],
];

#[test]
fn ends_are_dropped(rt: HostRuntime) {
    for script in DROPS {
        assert_eq!(rt; differs_at(Room::new(&rt), script), None);
    }
}

// Whether an error reads so.
fn reads<E: Display + Drop>(alloc: Global, error: E, text: &str) -> bool {
    match format!(in alloc; "{error}") {
        Ok(read) => read.as_str() == text,
        Err(_) => false,
    }
}

#[test]
fn texts(rt: HostRuntime) {
    let alloc = rt.alloc();
    assert_eq!(rt; *SendError(7u64).as_inner(), 7);
    assert!(rt; reads(alloc, SendError(7u64), "sending on a closed channel"));
    assert!(rt;
        reads(
            alloc,
            RecvError::Disconnected,
            "receiving on a closed channel"
        )
    );
    assert!(rt; reads(alloc, TryRecvError::Empty, "receiving on an empty channel"));
    assert!(rt;
        reads(
            alloc,
            TryRecvError::Disconnected,
            "receiving on a closed channel"
        )
    );
}
