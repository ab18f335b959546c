use crate::task::Task;
use mea::End;
use mea::barrier::Barrier;
use mea::latch::Latch;
use mea::waitgroup::WaitGroup;
use std::sync::Arc;

// Two tasks meet. The one that comes last leads, and the other is told.
#[test]
fn the_last_to_come_leads(rt: HostRuntime) {
    let (early, late) = (Task::new(&rt), Task::new(&rt));
    let barrier = Barrier::new(rt.alloc(), 2);
    let wait = early.later(&rt, barrier.wait());
    let leader = late.now(&rt, barrier.wait());
    assert!(rt; matches!(leader, Some(met) if met.is_leader()));
    assert!(rt; early.calls() == 1);
    let other = early.again(&rt, wait);
    assert!(rt; matches!(other, Some(met) if !met.is_leader()));
}

// A server waits until each of its workers has ended its handle.
#[test]
fn a_group_of_workers(rt: HostRuntime) {
    let server = Task::new(&rt);
    let group = WaitGroup::new(rt.alloc()).expect(&rt, "memory");
    let first = group.clone_handle(&rt).expect(&rt, "a handle");
    let second = group.clone_handle(&rt).expect(&rt, "a handle");
    // The server's own handle ends where it begins to wait.
    let done = server.later(&rt, group.into_future(&rt));
    first.end(&rt);
    assert!(rt; server.calls() == 0);
    second.end(&rt);
    assert!(rt; server.calls() == 1);
    assert!(rt; server.again(&rt, done) == Some(()));
}

// A wait that owns a share of its latch may outlive whoever made it.
#[test]
fn a_latch_that_tasks_share(rt: HostRuntime) {
    let task = Task::new(&rt);
    let parts = Arc::new(rt.alloc(), Latch::new(rt.alloc(), 3)).expect(&rt, "memory");
    let share = Arc::try_clone(&parts).expect(&rt, "memory");
    let up = task.later(&rt, share.wait_owned());
    parts.count_down(&rt);
    assert!(rt; parts.try_wait(&rt) == Err(2));
    parts.arrive(&rt, 2);
    assert!(rt; task.calls() == 1);
    assert!(rt; task.again(&rt, up) == Some(()));
}
