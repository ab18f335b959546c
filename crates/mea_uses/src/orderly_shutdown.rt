use crate::task::Task;
use mea::End;
use mea::shutdown::new_pair;

// A server tells its workers to stop, and waits until each has put its work away.
#[test]
fn an_orderly_shutdown(rt: HostRuntime) {
    let (server, worker) = (Task::new(&rt), Task::new(&rt));
    let (sender, receiver) = new_pair(rt.alloc()).expect(&rt, "memory");
    // The worker waits for its next message and for this signal at once.
    let signal = worker.later(&rt, receiver.is_shutdown());
    sender.shutdown(&rt);
    assert!(rt; worker.calls() == 1);
    assert!(rt; worker.again(&rt, signal) == Some(()));
    let stopped = server.later(&rt, sender.await_shutdown());
    receiver.end(&rt);
    assert!(rt; server.calls() == 1);
    assert!(rt; server.again(&rt, stopped) == Some(()));
}
