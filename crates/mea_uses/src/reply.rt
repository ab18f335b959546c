use crate::task::{Call, Task};
use mea::mpsc::{UnboundedReceiver, unbounded};
use mea::oneshot::{Plain, Sender, channel};
use mea::{End, Poll};
use std::sync::Wait;

// What an actor is asked: to double a number, and to send what it comes to.
#[derive(Drop)]
struct Ask {
    number: u64,
    reply: Sender<Plain<u64>, Call>,
}

// The actor's turn: it takes what it was asked, and replies. It tells whether whoever has asked still listens.
fn turn<R: Wait>(rt: &R, asked: &mut UnboundedReceiver<Ask, Call>) -> bool {
    match asked.try_recv(rt) {
        Ok(Ask { number, reply }) => reply.send_and_end(Plain(number.wrapping_mul(2))).is_ok(),
        Err(_) => false,
    }
}

// Who asks waits for the reply, and is told when it has come.
#[test]
fn a_reply_by_oneshot(rt: HostRuntime) {
    let client = Task::new(&rt);
    let (actor, mut asked) = unbounded(rt.alloc()).expect(&rt, "memory");
    let (reply, receiver) = channel(rt.alloc()).expect(&rt, "memory");
    let mut replied = receiver.into_future();
    assert!(rt; actor.send(&rt, Ask { number: 4, reply }).is_ok());
    assert!(rt; matches!(replied.poll(client.waker(&rt)), Poll::Pending));
    assert!(rt; turn(&rt, &mut asked));
    assert!(rt; client.calls() == 1);
    assert!(rt; matches!(replied.poll(client.waker(&rt)), Poll::Ready(Ok(Plain(8)))));
    actor.end(&rt);
    asked.end(&rt);
}

// A reply that nobody waits for any more comes back to who has sent it.
#[test]
fn a_reply_that_nobody_waits_for(rt: HostRuntime) {
    let (reply, receiver) = channel::<Plain<u64>, Call>(rt.alloc()).expect(&rt, "memory");
    receiver.end();
    assert!(rt; reply.send_and_end(Plain(4)).is_err());
}
