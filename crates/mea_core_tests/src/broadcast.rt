use crate::errors::reads;
use crate::play::Reply;
use crate::play::Reply::{
    Closed, Count, Disconnected, Done, Empty, Lagged, Nothing, Pending, Value,
};
use mea_base::Poll;
use mea_broadcast_core::{
    BroadcastCore, BroadcastFault, BroadcastRecv, BroadcastTry, Cursor, RecvWait, SendRefused,
};
use mea_test_support::{Plays, differs_at};
use std::alloc::Global;
use std::mem;
use std::process::Abort;

type Channel = BroadcastCore<u64, u64>;

// A call of a channel. Receivers are told apart by the order in which they are made.
#[derive(Clone, Copy)]
enum Call {
    Send(u64),
    Subscribe,
    Copy(usize),
    TryRecv(usize),
    PollRecv(usize, u64),
    EndRecv(usize),
    AddSender,
    EndSender,
    Tail,
    Registered,
    Wake,
    WakesReady,
}

// Where a receiver stands, and its wait for a message.
#[derive(Drop)]
struct Receiver {
    cursor: Cursor,
    wait: RecvWait,
}

// A channel, and the receivers that were made.
#[derive(Drop)]
struct Room {
    channel: Channel,
    receivers: Vec<Receiver>,
}

impl Room {
    fn new(alloc: Global, channel: Channel) -> Room {
        Room {
            channel,
            receivers: Vec::new(alloc),
        }
    }
}

impl Plays for Room {
    type Call = Call;

    type Reply = Reply;

    fn reply(&mut self, call: Call) -> Option<Reply> {
        match call {
            Call::Send(message) => Some(send_told(&mut self.channel, message)),
            Call::Subscribe => receiver_made(&mut self.receivers, self.channel.subscribe()),
            Call::Copy(place) => {
                let copy = copied(&self.channel, self.receivers.get(place)?);
                receiver_made(&mut self.receivers, copy)
            }
            Call::TryRecv(place) => try_told(&self.channel, self.receivers.get_mut(place)?),
            Call::PollRecv(place, waker) => {
                poll_told(&mut self.channel, self.receivers.get_mut(place)?, waker)
            }
            Call::EndRecv(place) => {
                Some(wait_ended(&mut self.channel, self.receivers.get_mut(place)?))
            }
            Call::AddSender => sender_made(&mut self.channel),
            Call::EndSender => Some(sender_ended(&mut self.channel)),
            Call::Tail => Some(Value(self.channel.tail())),
            Call::Registered => Some(Count(self.channel.registered())),
            Call::Wake => Some(Reply::found(self.channel.next_wake())),
            Call::WakesReady => Some(Count(self.channel.wakes_ready())),
        }
    }
}

fn send_told(channel: &mut Channel, message: u64) -> Reply {
    match channel.send(message) {
        Ok(()) => Done,
        Err(SendRefused(message)) => Closed(message),
    }
}

fn receiver_made(receivers: &mut Vec<Receiver>, cursor: Cursor) -> Option<Reply> {
    let wait = RecvWait::new();
    match receivers.push(Receiver { cursor, wait }) {
        Ok(()) => Some(Done),
        Err(_) => None,
    }
}

fn copied(channel: &Channel, receiver: &Receiver) -> Cursor {
    channel.copy_checked(&receiver.cursor)
}

fn try_told(channel: &Channel, receiver: &mut Receiver) -> Option<Reply> {
    match channel.try_recv_checked(&mut receiver.cursor) {
        Ok(message) => Some(Value(message)),
        Err(BroadcastTry::Empty) => Some(Empty),
        Err(BroadcastTry::Lagged(missed)) => Some(Lagged(missed)),
        Err(BroadcastTry::Disconnected) => Some(Disconnected),
        Err(BroadcastTry::NoMemory) => None,
    }
}

fn poll_told(channel: &mut Channel, receiver: &mut Receiver, waker: u64) -> Option<Reply> {
    match channel.poll_recv_checked(&mut receiver.cursor, &mut receiver.wait, waker) {
        Ok(Poll::Ready(Ok(message))) => Some(Value(message)),
        Ok(Poll::Ready(Err(BroadcastRecv::Lagged(missed)))) => Some(Lagged(missed)),
        Ok(Poll::Ready(Err(BroadcastRecv::Disconnected))) => Some(Disconnected),
        Ok(Poll::Pending) => Some(Pending),
        Err(_) => None,
    }
}

fn wait_ended(channel: &mut Channel, receiver: &mut Receiver) -> Reply {
    channel.end_recv_checked(mem::replace(&mut receiver.wait, RecvWait::new()));
    Done
}

fn sender_made(channel: &mut Channel) -> Option<Reply> {
    match channel.add_sender_checked() {
        Ok(()) => Some(Done),
        Err(_) => None,
    }
}

fn sender_ended(channel: &mut Channel) -> Reply {
    channel.end_sender_checked();
    Done
}

#[test]
fn texts(rt: HostRuntime) {
    let alloc = rt.alloc();
    assert!(rt;
        reads(
            alloc,
            BroadcastRecv::Lagged(12),
            "receiver has been lagged by 12"
        )
    );
    assert!(rt;
        reads(
            alloc,
            BroadcastRecv::Disconnected,
            "receiving on a closed channel"
        )
    );
    assert!(rt; reads(alloc, BroadcastTry::Empty, "receiving on an empty channel"));
    assert!(rt;
        reads(
            alloc,
            BroadcastTry::Lagged(1),
            "receiver has been lagged by 1"
        )
    );
    assert!(rt;
        reads(
            alloc,
            BroadcastTry::Disconnected,
            "receiving on a closed channel"
        )
    );
    assert!(rt; reads(alloc, BroadcastTry::NoMemory, "out of memory"));
}

// Scripts, each with the capacity of its channel.
const SCRIPTS: &[(usize, &[(Call, Reply)])] = &[
    // The ring of a capacity of 3 has 4 places, so of five messages the first is missed.
    (
        3,
        &[
            (Call::Subscribe, Done),
            (Call::Send(1), Done),
            (Call::Send(2), Done),
            (Call::Send(3), Done),
            (Call::Send(4), Done),
            (Call::Send(5), Done),
            (Call::TryRecv(0), Lagged(1)),
            (Call::TryRecv(0), Value(2)),
        ],
    ),
    // A receiver that fell behind is told how far, goes on with the oldest kept message, and hears of the last sender's end.
    (
        2,
        &[
            (Call::Subscribe, Done),
            (Call::Send(1), Done),
            (Call::Send(2), Done),
            (Call::Send(3), Done),
            (Call::Send(4), Done),
            (Call::TryRecv(0), Lagged(2)),
            (Call::TryRecv(0), Value(3)),
            (Call::TryRecv(0), Value(4)),
            (Call::TryRecv(0), Empty),
            (Call::EndSender, Done),
            (Call::TryRecv(0), Disconnected),
        ],
    ),
    // One that subscribes at the tail hears what is sent from then on; a copy hears what its original does.
    (
        2,
        &[
            (Call::Subscribe, Done),
            (Call::Send(1), Done),
            (Call::Send(2), Done),
            (Call::Subscribe, Done),
            (Call::Send(3), Done),
            (Call::Copy(0), Done),
            (Call::TryRecv(0), Lagged(1)),
            (Call::TryRecv(0), Value(2)),
            (Call::TryRecv(1), Value(3)),
            (Call::TryRecv(2), Lagged(1)),
        ],
    ),
    // A send wakes all who wait, in the order in which they began to, and so does the last sender's end.
    (
        4,
        &[
            (Call::AddSender, Done),
            (Call::Subscribe, Done),
            (Call::Subscribe, Done),
            (Call::PollRecv(0, 10), Pending),
            (Call::PollRecv(1, 11), Pending),
            (Call::PollRecv(0, 12), Pending),
            (Call::Registered, Count(2)),
            (Call::Send(7), Done),
            (Call::Wake, Value(12)),
            (Call::Wake, Value(11)),
            (Call::Wake, Nothing),
            (Call::PollRecv(0, 13), Value(7)),
            (Call::PollRecv(0, 14), Pending),
            (Call::EndSender, Done),
            (Call::WakesReady, Count(0)),
            (Call::EndSender, Done),
            (Call::Wake, Value(14)),
            (Call::PollRecv(0, 15), Disconnected),
            (Call::EndRecv(1), Done),
        ],
    ),
];

// A channel of this capacity, which is not 0.
fn channel(alloc: Global, capacity: usize) -> Option<Channel> {
    if capacity == 0 {
        return None;
    }
    BroadcastCore::new(alloc, capacity).ok()
}

// The place of the first call of a channel of this capacity that tells something else.
fn differs(
    rt: &(impl Abort + AllocGlobal),
    capacity: usize,
    script: &[(Call, Reply)],
) -> Option<usize> {
    let channel = channel(rt.alloc(), capacity).expect(rt, "memory");
    differs_at(Room::new(rt.alloc(), channel), script)
}

#[test]
fn calls_of_a_broadcast(rt: HostRuntime) {
    for (capacity, script) in SCRIPTS {
        assert_eq!(rt; differs(&rt, *capacity, script), None);
    }
}

// Whether a capacity of more than half of all places is refused.
fn is_too_large(alloc: Global) -> bool {
    let made: Result<Channel, BroadcastFault> = BroadcastCore::new(alloc, 9223372036854775809);
    matches!(made, Err(BroadcastFault::Overflow))
}

#[test]
fn a_capacity_has_an_end(rt: HostRuntime) {
    assert!(rt; is_too_large(rt.alloc()));
}

// The last position is not given; the message comes back.
const THE_TAIL_ENDS: &[(Call, Reply)] = &[
    (Call::Subscribe, Done),
    (Call::Send(1), Done),
    (Call::Send(2), Closed(2)),
    (Call::Tail, Value(u64::MAX)),
    (Call::TryRecv(0), Value(1)),
];

fn differs_at_the_end(rt: &(impl Abort + AllocGlobal), script: &[(Call, Reply)]) -> Option<usize> {
    let channel = BroadcastCore::at_tail(rt.alloc(), 2, u64::MAX - 1).expect(rt, "memory");
    differs_at(Room::new(rt.alloc(), channel), script)
}

#[test]
fn the_tail_ends(rt: HostRuntime) {
    assert_eq!(rt; differs_at_the_end(&rt, THE_TAIL_ENDS), None);
}
