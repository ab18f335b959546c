use crate::polls::rests;
use futures::task::{Context, Poll};
use futures::test::MockTask;
use futures::{Future, Sink, ready};
use mea_futures::{Bell, FeedError, Feeding, Kept, feed};
use mea_link::mpsc::{BoundedReceiver, bounded};
use mea_wait::End;
use std::process::Abort;
use std::sync::Wait;

// A task that sends two messages.
#[derive(Drop)]
struct Two<'a, R: Wait> {
    sink: Feeding<'a, R, u64>,
    sent: u64,
}

impl<'a, R: Wait> Future for Two<'a, R> {
    type Output = bool;

    fn poll(&mut self, cx: &mut Context<'_>) -> Poll<bool> {
        if ready!(self.sink.poll_ready(cx)).is_err() {
            return Poll::Ready(false);
        }
        if self.sent < 2 {
            self.sent += 1;
            if self.sink.start_send(self.sent).is_err() {
                return Poll::Ready(false);
            }
            return cx.yield_now();
        }
        match ready!(self.sink.poll_close(cx)) {
            Ok(()) => Poll::Ready(true),
            Err(_) => Poll::Ready(false),
        }
    }
}

// A sink holds one item, which waits for its place; what was sent comes in order.
#[test]
fn a_sink_waits_for_a_place(rt: HostRuntime) {
    let task = MockTask::new(&rt).expect(&rt, "memory");
    let (sender, receiver) = bounded::<u64, Bell>(rt.alloc(), 1).expect(&rt, "memory");
    let (sender, mut receiver) = (Kept::new(&rt, sender), Kept::new(&rt, receiver));
    let sink = feed(&rt, rt.alloc(), sender.get()).expect(&rt, "memory");
    waits_for_a_place(&rt, &task, receiver.get_mut(), Two { sink, sent: 0 });
}

fn waits_for_a_place<R: Wait + Abort, F: Future<Output = bool>>(
    rt: &R,
    task: &MockTask,
    receiver: &mut BoundedReceiver<u64, Bell>,
    mut two: F,
)
    requires { F.can_poll two }
{
    // The first has its place at once, and the second waits for the next.
    assert!(rt; rests(task, &mut two) && rests(task, &mut two));
    assert!(rt; rests(task, &mut two) && !task.is_woken());
    assert!(rt; receiver.try_recv(rt) == Ok(1) && task.is_woken());
    assert!(rt; task.poll(&mut two) == Poll::Ready(true));
    assert!(rt; receiver.try_recv(rt) == Ok(2));
}

// An item that a sink has no receiver for comes back.
#[test]
fn an_item_for_nobody_comes_back(rt: HostRuntime) {
    let (sender, receiver) = bounded::<u64, Bell>(rt.alloc(), 1).expect(&rt, "memory");
    let sender = Kept::new(&rt, sender);
    receiver.end(&rt);
    let sink = feed(&rt, rt.alloc(), sender.get()).expect(&rt, "memory");
    assert!(rt; start_send(sink, 7) == Err(FeedError::Closed(7)));
}

fn start_send<E: Drop, S: Sink<u64, Error = E>>(mut sink: S, item: u64) -> Result<(), E>
    requires ready { S.can_poll sink × S.can_send sink }
    requires taken { S.takes sink item }
{
    sink.start_send(item)
}
