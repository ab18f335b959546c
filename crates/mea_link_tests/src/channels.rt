use crate::counts::bell;
use mea_link::broadcast::overflow::{self, RecvError};
use mea_link::mpsc::{
    BoundedReceiver, BoundedSender, RecvError as Ended, SendError, TryRecvError, TrySendError,
    UnboundedError, UnboundedSender, bounded, unbounded,
};
use mea_test_support::{Bell, Count, end, gives, goes_on, rung};
use mea_wait::{End, Waits};
use std::process::Abort;
use std::sync::Wait;

// A full channel keeps a send waiting until a message is received, in order. A further sender keeps it open once the first has
// ended; the end of the last wakes a receive that waits.
#[test]
fn a_bounded_channel(rt: HostRuntime) {
    let one = bell(&rt);
    let two = bell(&rt);
    let (sender, mut receiver) = bounded::<u64, Bell>(rt.alloc(), 1).expect(&rt, "memory");
    keeps_a_send_waiting(&rt, &sender, sender.send(9), &mut receiver, &one);
    let last = sender.clone_handle(&rt).expect(&rt, "memory");
    sender.end(&rt);
    hears_the_last(&rt, last, receiver.recv(), &two, Ended::Disconnected);
    receiver.end(&rt);
}

fn keeps_a_send_waiting<R: Wait + Abort, F: Waits<Bell, Result<(), SendError<u64>>>>(
    rt: &R,
    sender: &BoundedSender<u64, Bell>,
    send: F,
    receiver: &mut BoundedReceiver<u64, Bell>,
    bell: &Count,
)
    requires { F.can_poll send }
{
    assert!(rt; sender.try_send(rt, 7) == Ok(()));
    assert!(rt; sender.try_send(rt, 8) == Err(TrySendError::Full(8)));
    let send = goes_on(rt, send, bell);
    assert!(rt; receiver.try_recv(rt) == Ok(7));
    assert!(rt; rung(bell) == 1);
    assert!(rt; gives(rt, send, bell) == Some(Ok(())));
    assert!(rt; gives(rt, Some(receiver.recv()), bell) == Some(Ok(9)));
    assert!(rt; receiver.try_recv(rt) == Err(TryRecvError::Empty));
}

// A receiver that waits is woken by a message. A further sender keeps the channel open once the first has ended, and the receiver
// hears that the last has.
#[test]
fn an_unbounded_channel(rt: HostRuntime) {
    let one = bell(&rt);
    let two = bell(&rt);
    let (sender, mut receiver) = unbounded::<u64, Bell>(rt.alloc()).expect(&rt, "memory");
    wakes_its_receiver(&rt, &sender, receiver.recv(), &one);
    let last = sender.clone_handle(&rt).expect(&rt, "memory");
    sender.end(&rt);
    hears_the_last(&rt, last, receiver.recv(), &two, Ended::Disconnected);
    assert!(rt; receiver.try_recv(&rt) == Err(TryRecvError::Disconnected));
    receiver.end(&rt);
}

fn wakes_its_receiver<R: Wait + Abort, F: Waits<Bell, Result<u64, Ended>>>(
    rt: &R,
    sender: &UnboundedSender<u64, Bell>,
    recv: F,
    bell: &Count,
)
    requires { F.can_poll recv }
{
    let recv = goes_on(rt, recv, bell);
    assert!(rt; sender.send(rt, 5).is_ok());
    assert!(rt; rung(bell) == 1);
    assert!(rt; gives(rt, recv, bell) == Some(Ok(5)));
}

// A receive that waits is woken by the end of the last sender, and told of it.
fn hears_the_last<R: Wait + Abort, S: End, E: Drop + PartialEq, F: Waits<Bell, Result<u64, E>>>(
    rt: &R,
    last: S,
    recv: F,
    bell: &Count,
    told: E,
)
    requires { F.can_poll recv }
{
    let recv = goes_on(rt, recv, bell);
    last.end(rt);
    assert!(rt; rung(bell) == 1);
    assert!(rt; gives(rt, recv, bell) == Some(Err(told)));
}

// A send that is ended once it has its place passes that on. The end of the receiver wakes a send that waits, whose value
// comes back.
#[test]
fn sends_that_wait(rt: HostRuntime) {
    let one = bell(&rt);
    let two = bell(&rt);
    let (sender, receiver) = bounded(rt.alloc(), 1).expect(&rt, "memory");
    pass_their_place_on(&rt, &sender, receiver, &one, &two);
    assert!(rt; sender.try_send(&rt, 1) == Err(TrySendError::Disconnected(1)));
    sender.end(&rt);
}

fn pass_their_place_on<R: Wait + Abort>(
    rt: &R,
    sender: &BoundedSender<u64, Bell>,
    receiver: BoundedReceiver<u64, Bell>,
    one: &Count,
    two: &Count,
) {
    assert!(rt; sender.try_send(rt, 7) == Ok(()));
    let sends = (sender.send(8), sender.send(9), sender.send(10));
    wait_for_a_place(rt, receiver, sends, (one, two));
}

fn wait_for_a_place<R: Wait + Abort, F: Waits<Bell, Result<(), SendError<u64>>>>(
    rt: &R,
    mut receiver: BoundedReceiver<u64, Bell>,
    sends: (F, F, F),
    bells: (&Count, &Count),
)
    requires first { F.can_poll sends.0 }
    requires second { F.can_poll sends.1 }
    requires third { F.can_poll sends.2 }
{
    let (one, two) = bells;
    let (first, second, third) = sends;
    let first = goes_on(rt, first, one);
    let second = goes_on(rt, second, two);
    assert!(rt; receiver.try_recv(rt) == Ok(7));
    assert!(rt; (rung(one), rung(two)) == (1, 0));
    assert!(rt; end(rt, first));
    assert!(rt; (rung(one), rung(two)) == (1, 1));
    assert!(rt; gives(rt, second, two) == Some(Ok(())));
    let third = goes_on(rt, third, two);
    receiver.end(rt);
    assert!(rt; rung(two) == 2);
    assert!(rt; gives(rt, third, two) == Some(Err(SendError(10))));
}

// A message to a receiver that has ended comes back.
#[test]
fn a_message_to_nobody(rt: HostRuntime) {
    let (sender, receiver) = unbounded(rt.alloc()).expect(&rt, "memory");
    let sender: UnboundedSender<u64, Bell> = sender;
    receiver.end(&rt);
    assert!(rt; sender.send(&rt, 5) == Err(UnboundedError::Closed(5)));
    sender.end(&rt);
}

// The next two messages of a receiver, which is ended.
fn next_two<R: Wait>(
    rt: &R,
    mut receiver: overflow::Receiver<u64, Bell>,
) -> (Option<u64>, Option<u64>) {
    let first = receiver.try_recv(rt).ok();
    let second = receiver.try_recv(rt).ok();
    receiver.end(rt);
    (first, second)
}

// A copy hears what its original has yet to hear, and who subscribes what is sent from then on. A receive that waits is woken by a
// message, and by the end of the last sender.
#[test]
fn receivers_of_a_broadcast(rt: HostRuntime) {
    let bell = bell(&rt);
    let (sender, mut receiver) = overflow::channel(rt.alloc(), 4).expect(&rt, "memory");
    are_made(&rt, &sender, &mut receiver);
    assert!(rt; receiver.try_recv(&rt) == Ok(3));
    let last: overflow::Sender<u64, Bell> = sender.clone_handle(&rt).expect(&rt, "memory");
    sender.end(&rt);
    hears_the_last(&rt, last, receiver.recv(), &bell, RecvError::Disconnected);
    receiver.end(&rt);
}

fn are_made<R: Wait + Abort>(
    rt: &R,
    sender: &overflow::Sender<u64, Bell>,
    receiver: &mut overflow::Receiver<u64, Bell>,
) {
    assert!(rt; sender.send(rt, 1).is_ok());
    assert!(rt; sender.send(rt, 2).is_ok());
    assert!(rt; receiver.try_recv(rt) == Ok(1));
    let copy = receiver.clone_handle(rt).expect(rt, "memory");
    let anew = receiver.resubscribe(rt).expect(rt, "memory");
    let later = sender.subscribe(rt).expect(rt, "memory");
    assert!(rt; sender.send(rt, 3).is_ok());
    assert!(rt; next_two(rt, copy) == (Some(2), Some(3)));
    assert!(rt; next_two(rt, anew) == (Some(3), None));
    assert!(rt; next_two(rt, later) == (Some(3), None));
    assert!(rt; receiver.try_recv(rt) == Ok(2));
}
