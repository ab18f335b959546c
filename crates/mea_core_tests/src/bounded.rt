use crate::play::Reply;
use crate::play::Reply::{Closed, Count, Disconnected, Done, Empty, Full, Nothing, Pending, Value};
use mea_base::{NoMemory, Poll};
use mea_chan_core::{BoundedCore, SendError, SendWait, TrySendError};
use mea_test_support::{Plays, differs_at};
use std::alloc::Global;
use std::process::Abort;

type Channel = BoundedCore<u64, u64>;

// A call of a channel. Sends are told apart by the order in which they are made.
#[derive(Clone, Copy)]
enum Call {
    // Makes a send of this value, which is not polled yet.
    Send(u64),
    PollSend(usize, u64),
    EndSend(usize),
    TrySend(u64),
    TryRecv,
    PollRecv(u64),
    EndSender,
    EndReceiver,
    Wake,
    WakesReady,
}

// A channel with one place, and the sends that were made.
#[derive(Drop)]
struct Room {
    channel: Channel,
    sends: Vec<Option<SendWait<u64>>>,
}

impl Room {
    fn new(alloc: Global) -> Result<Room, NoMemory> {
        Ok(Room {
            channel: BoundedCore::new(alloc, 1)?,
            sends: Vec::new(alloc),
        })
    }
}

impl Plays for Room {
    type Call = Call;

    type Reply = Reply;

    fn reply(&mut self, call: Call) -> Option<Reply> {
        match call {
            Call::Send(value) => made(&mut self.sends, value),
            Call::PollSend(place, waker) => {
                poll_told(&mut self.channel, self.sends.get_mut(place)?, waker)
            }
            Call::EndSend(place) => end_told(&mut self.channel, self.sends.get_mut(place)?),
            Call::TrySend(value) => Some(send_told(&mut self.channel, value)),
            Call::TryRecv => Some(Reply::received(self.channel.try_recv())),
            Call::PollRecv(waker) => Some(Reply::heard(self.channel.poll_recv(waker).ok()?)),
            Call::EndSender => Some(sender_ended(&mut self.channel)),
            Call::EndReceiver => Some(Reply::fallen(self.channel.end_receiver_checked())),
            Call::Wake => Some(Reply::found(self.channel.next_wake())),
            Call::WakesReady => Some(Count(self.channel.wakes_ready())),
        }
    }
}

fn made(sends: &mut Vec<Option<SendWait<u64>>>, value: u64) -> Option<Reply> {
    match sends.push(Some(SendWait::new(value))) {
        Ok(()) => Some(Done),
        Err(_) => None,
    }
}

fn poll_told(channel: &mut Channel, send: &mut Option<SendWait<u64>>, waker: u64) -> Option<Reply> {
    match channel.poll_send_checked(send.as_mut()?, waker) {
        Ok(Poll::Ready(Ok(()))) => Some(Done),
        Ok(Poll::Ready(Err(SendError(value)))) => Some(Closed(value)),
        Ok(Poll::Pending) => Some(Pending),
        Err(_) => None,
    }
}

fn end_told(channel: &mut Channel, send: &mut Option<SendWait<u64>>) -> Option<Reply> {
    Some(Reply::found(channel.end_send_checked(send.take()?)))
}

fn send_told(channel: &mut Channel, value: u64) -> Reply {
    match channel.try_send(value) {
        Ok(()) => Done,
        Err(TrySendError::Full(value)) => Full(value),
        Err(TrySendError::Disconnected(value)) => Closed(value),
    }
}

fn sender_ended(channel: &mut Channel) -> Reply {
    channel.end_sender_checked();
    Done
}

const SCRIPTS: &[&[(Call, Reply)]] = &[
    // One place, three sends, and a try that takes the place that a waiting send was woken for.
    &[
        (Call::Send(7), Done),
        (Call::Send(8), Done),
        (Call::Send(9), Done),
        (Call::PollSend(0, 20), Done),
        (Call::PollSend(1, 21), Pending),
        (Call::PollSend(2, 22), Pending),
        (Call::TryRecv, Value(7)),
        (Call::Wake, Value(21)),
        (Call::TrySend(10), Done),
        (Call::PollSend(1, 23), Pending),
        (Call::TryRecv, Value(10)),
        (Call::Wake, Value(22)),
        (Call::PollSend(2, 24), Done),
        (Call::TryRecv, Value(9)),
        (Call::Wake, Value(23)),
        (Call::PollSend(1, 25), Done),
        (Call::TryRecv, Value(8)),
        (Call::TryRecv, Empty),
        (Call::EndSender, Done),
        (Call::TryRecv, Disconnected),
        (Call::WakesReady, Count(0)),
    ],
    // A send that is ended new, waiting, granted, and after its answer: its value comes back unless it was sent, and a place
    // that it was granted goes to the next.
    &[
        (Call::Send(1), Done),
        (Call::EndSend(0), Value(1)),
        (Call::Send(2), Done),
        (Call::Send(3), Done),
        (Call::Send(4), Done),
        (Call::Send(5), Done),
        (Call::PollSend(1, 20), Done),
        (Call::EndSend(1), Nothing),
        (Call::PollSend(2, 21), Pending),
        (Call::PollSend(3, 22), Pending),
        (Call::PollSend(4, 23), Pending),
        (Call::EndSend(2), Value(3)),
        (Call::TryRecv, Value(2)),
        (Call::Wake, Value(22)),
        (Call::EndSend(3), Value(4)),
        (Call::Wake, Value(23)),
        (Call::PollSend(4, 24), Done),
    ],
    // The receiver waits, is woken by a message, and ends: all who wait are woken, and their values come back.
    &[
        (Call::PollRecv(10), Pending),
        (Call::PollRecv(11), Pending),
        (Call::TrySend(1), Done),
        (Call::Wake, Value(11)),
        (Call::TrySend(2), Full(2)),
        (Call::Send(3), Done),
        (Call::Send(4), Done),
        (Call::PollSend(0, 20), Pending),
        (Call::PollSend(1, 21), Pending),
        (Call::EndReceiver, Count(1)),
        (Call::Wake, Value(20)),
        (Call::Wake, Value(21)),
        (Call::PollSend(0, 22), Closed(3)),
        (Call::PollRecv(12), Disconnected),
        (Call::TrySend(5), Closed(5)),
        (Call::EndSend(1), Value(4)),
    ],
    // A receiver that has ended is not ended again: its messages fell once, and all stays as it was, also who is to be woken.
    &[
        (Call::TrySend(1), Done),
        (Call::Send(2), Done),
        (Call::PollSend(0, 20), Pending),
        (Call::EndReceiver, Count(1)),
        (Call::EndReceiver, Nothing),
        (Call::WakesReady, Count(1)),
        (Call::Wake, Value(20)),
        (Call::EndReceiver, Nothing),
        (Call::WakesReady, Count(0)),
        (Call::TrySend(3), Closed(3)),
        (Call::PollSend(0, 21), Closed(2)),
        (Call::TryRecv, Disconnected),
    ],
    // So does the waker of a receiver that waited: the end of the last sender wakes it.
    &[
        (Call::PollRecv(10), Pending),
        (Call::EndReceiver, Count(0)),
        (Call::EndReceiver, Nothing),
        (Call::WakesReady, Count(0)),
        (Call::EndSender, Done),
        (Call::Wake, Value(10)),
        (Call::EndReceiver, Nothing),
        (Call::Wake, Nothing),
        (Call::PollRecv(11), Disconnected),
    ],
];

// The place of the first call that tells something else.
fn differs(rt: &(impl Abort + AllocGlobal), script: &[(Call, Reply)]) -> Option<usize> {
    differs_at(Room::new(rt.alloc()).expect(rt, "memory"), script)
}

#[test]
fn calls_of_a_bounded_channel(rt: HostRuntime) {
    for script in SCRIPTS {
        assert_eq!(rt; differs(&rt, script), None);
    }
}

// No memory can hold so many messages, and no number so many senders.
#[test]
fn numbers_have_ends(rt: HostRuntime) {
    assert!(rt; has_no_room(rt.alloc()));
    assert!(rt; full_takes_senders(&rt) == (false, true));
}

// Whether a channel with as many senders as it may have takes one more, and whether it does once one has ended.
fn full_takes_senders(rt: &(impl Abort + AllocGlobal)) -> (bool, bool) {
    let channel = BoundedCore::at_senders(rt.alloc(), 1, usize::MAX);
    let mut channel: Channel = channel.expect(rt, "memory");
    let before = takes_a_sender(&mut channel);
    channel.end_sender_checked();
    (before, takes_a_sender(&mut channel))
}

fn has_no_room(alloc: Global) -> bool {
    BoundedCore::<u64, u64>::new(alloc, usize::MAX).is_err()
}

fn takes_a_sender(channel: &mut Channel) -> bool {
    channel.add_sender_checked().is_ok()
}
