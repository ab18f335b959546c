use crate::task::{Call, Task};
use mea::End;
use mea::broadcast::overflow::{Receiver, RecvError, Sender, TryRecvError, channel};
use std::process::Abort;
use std::sync::Wait;

// Each subscriber hears each message; one that is slow hears how many it has missed, and keeps nobody up.
#[test]
fn a_publish_subscribe_hub(rt: HostRuntime) {
    let fast = Task::new(&rt);
    let (hub, mut slow) = channel(rt.alloc(), 2).expect(&rt, "memory");
    hears_at_once(&rt, &fast, &hub);
    assert!(rt; hub.send(&rt, 2).is_ok());
    assert!(rt; hub.send(&rt, 3).is_ok());
    catches_up(&rt, &fast, &mut slow);
    hub.end(&rt);
}

fn hears_at_once<R: Wait + Abort>(rt: &R, task: &Task, hub: &Sender<u64, Call>) {
    let mut subscriber = hub.subscribe(rt).expect(rt, "memory");
    let idle = task.later(rt, subscriber.recv());
    assert!(rt; hub.send(rt, 1).is_ok());
    assert!(rt; task.calls() == 1);
    assert!(rt; task.again(rt, idle) == Some(Ok(1)));
}

fn catches_up<R: Wait + Abort>(rt: &R, task: &Task, slow: &mut Receiver<u64, Call>) {
    assert!(rt; task.now(rt, slow.recv()) == Some(Err(RecvError::Lagged(1))));
    assert!(rt; slow.try_recv(rt) == Ok(2));
    assert!(rt; slow.try_recv(rt) == Ok(3));
    assert!(rt; slow.try_recv(rt) == Err(TryRecvError::Empty));
}
