use crate::polls::{Tasks, rests};
use futures::task::Poll;
use futures::test::MockTask;
use futures::{Future, Stream};
use mea_futures::{Bell, Kept, Lagged, Receives, Receiving, receive, wait};
use mea_link::broadcast::overflow;
use mea_link::broadcast::overflow::channel;
use mea_link::mpsc::{BoundedSender, SendError, bounded};
use mea_wait::{PollFault, Waits};
use std::alloc::AllocGlobal;
use std::process::Abort;
use std::random::RandomSource;
use std::sync::Wait;

// Polls a stream for its next message.
fn next<R: Wait, C: Receives<M>, M>(
    task: &MockTask,
    stream: &mut Receiving<'_, R, C, M>,
) -> Poll<Option<M>> {
    task.enter(|cx| stream.poll_next(cx))
}

// Whether that poll gives this.
fn gives<R: Wait, C: Receives<M>, M: PartialEq + Drop>(
    task: &MockTask,
    stream: &mut Receiving<'_, R, C, M>,
    told: Poll<Option<M>>,
) -> bool {
    next(task, stream) == told
}

// A receiver is dropped in the middle of its stream: the send that waits has its message back.
#[test]
fn a_receiver_is_dropped_in_the_middle(rt: HostRuntime) {
    let (sender, receiver) = bounded::<u64, Bell>(rt.alloc(), 1).expect(&rt, "memory");
    let sender = Kept::new(&rt, sender);
    is_dropped(&rt, sender.get(), receiver, sender.get().send(2));
}

// Who receives reads a stream, and the second message is sent by a wait.
fn is_dropped<
    R: Wait + RandomSource + AllocGlobal + Abort,
    C: Receives<u64>,
    F: Waits<Bell, Result<(), SendError<u64>>>,
>(rt: &R, sender: &BoundedSender<u64, Bell>, receiver: C, second: F)
    requires { F.can_poll second }
{
    let stream = receive(rt, rt.alloc(), receiver).expect(rt, "memory");
    let second = wait(rt, rt.alloc(), second).expect(rt, "memory");
    gives_back(rt, &Tasks::new(rt), sender, stream, second);
}

fn gives_back<
    R: Wait + Abort,
    C: Receives<u64>,
    F: Future<Output = Result<Result<(), SendError<u64>>, PollFault>>,
>(
    rt: &R,
    tasks: &Tasks,
    sender: &BoundedSender<u64, Bell>,
    mut stream: Receiving<'_, R, C, u64>,
    mut second: F,
)
    requires { F.can_poll second }
{
    let Tasks {
        one: reader,
        two: writer,
    } = tasks;
    assert!(rt; gives(reader, &mut stream, Poll::Pending));
    assert!(rt; sender.try_send(rt, 1).is_ok() && reader.is_woken());
    assert!(rt; sender.try_send(rt, 2).is_err());
    assert!(rt; rests(writer, &mut second));
    assert!(rt; gives(reader, &mut stream, Poll::Ready(Some(1))));
    assert!(rt; writer.is_woken());
    drop(stream);
    assert!(rt; matches!(writer.poll(&mut second), Poll::Ready(Ok(Err(SendError(2))))));
}

// A slow subscriber hears how many messages it has missed, and goes on; the stream ends with the last sender.
#[test]
fn a_slow_subscriber(rt: HostRuntime) {
    let (hub, receiver) = channel::<u64, Bell>(rt.alloc(), 2).expect(&rt, "memory");
    let hub = Kept::new(&rt, hub);
    hears(&rt, hub, receiver);
}

fn hears<R: Wait + RandomSource + AllocGlobal + Abort, C: Receives<Result<u64, Lagged>>>(
    rt: &R,
    hub: Kept<'_, R, overflow::Sender<u64, Bell>>,
    receiver: C,
) {
    let task = MockTask::new(rt).expect(rt, "memory");
    let mut stream = receive(rt, rt.alloc(), receiver).expect(rt, "memory");
    misses_one(rt, &task, hub.get(), &mut stream);
    hears_on(rt, &task, hub, &mut stream);
}

// Of three messages two are kept.
fn misses_one<R: Wait + Abort, C: Receives<Result<u64, Lagged>>>(
    rt: &R,
    task: &MockTask,
    hub: &overflow::Sender<u64, Bell>,
    stream: &mut Receiving<'_, R, C, Result<u64, Lagged>>,
) {
    for message in 1..4u64 {
        assert!(rt; hub.send(rt, message).is_ok());
    }
    assert!(rt; gives(task, stream, Poll::Ready(Some(Err(Lagged(1))))));
    assert!(rt; gives(task, stream, Poll::Ready(Some(Ok(2)))));
    assert!(rt; gives(task, stream, Poll::Ready(Some(Ok(3)))));
}

fn hears_on<R: Wait + Abort, C: Receives<Result<u64, Lagged>>>(
    rt: &R,
    task: &MockTask,
    hub: Kept<'_, R, overflow::Sender<u64, Bell>>,
    stream: &mut Receiving<'_, R, C, Result<u64, Lagged>>,
) {
    // Two polls that find nothing wake nobody.
    assert!(rt; gives(task, stream, Poll::Pending));
    assert!(rt; gives(task, stream, Poll::Pending) && !task.is_woken());
    assert!(rt; hub.get().send(rt, 4).is_ok() && task.is_woken());
    assert!(rt; gives(task, stream, Poll::Ready(Some(Ok(4)))));
    assert!(rt; gives(task, stream, Poll::Pending));
    drop(hub);
    assert!(rt; task.is_woken());
    assert!(rt; gives(task, stream, Poll::Ready(None)));
}
