ghost use Rattle.std.specs.Prelude.{◌≡◌, IsSomeAnd};

use crate::job::{acquire, shared};
use crate::polls::{Answer, Tasks, has, rests};
use crate::waits::{holding, is_granted, is_pending};
use futures::Future;
use futures::task::Poll;
use futures::test::MockTask;
use mea_futures::{Bell, TryHolding};
use mea_sync::semaphore::Semaphore;
use mea_wait::{End, Waits};
use std::alloc::AllocGlobal;
use std::process::Abort;
use std::random::RandomSource;
use std::sync::Wait;
use std::time::{Clock, Duration, Instant};
use tokio::time::Driver;

// A further poll of the same task wakes nobody; one of another task takes the wait over.
#[test]
fn a_wait_wakes_the_task_that_polled_it_last(rt: HostRuntime) {
    let semaphore = shared(&rt, 0);
    takes_over(&rt, &*semaphore, acquire(&rt, &semaphore, 1));
}

fn takes_over<
    R: Wait + RandomSource + AllocGlobal + Abort,
    F: Waits<Bell, Result<P, E>>,
    P: End,
    E: Drop,
>(rt: &R, semaphore: &Semaphore<Bell>, first: F)
    requires { F.can_poll first }
{
    let tasks = Tasks::new(rt);
    let Tasks { one, two } = &tasks;
    let mut first = holding(rt, first);
    assert!(rt; is_pending(one, &mut first) && is_pending(one, &mut first));
    assert!(rt; !one.is_woken());
    assert!(rt; is_pending(two, &mut first));
    assert!(rt; one.is_woken() && !two.is_woken());
    assert!(rt; semaphore.release(rt, 1).is_ok() && two.is_woken());
    assert!(rt; is_granted(two, &mut first));
    assert!(rt; semaphore.available_permits(rt) == 1);
}

// A time limit of tokio abandons a queued acquire, and the next one has its turn.
#[test]
fn a_timeout_abandons_a_queued_acquire(rt: HostRuntime) {
    let semaphore = shared(&rt, 2);
    let (first, second) = (acquire(&rt, &semaphore, 3), acquire(&rt, &semaphore, 1));
    is_timed(&rt, first, second);
    assert!(rt; semaphore.available_permits(&rt) == 2);
}

// The first has a time limit, and the second has none.
fn is_timed<
    R: Wait + Clock + RandomSource + AllocGlobal + Abort,
    F: Waits<Bell, Result<P, E>>,
    P: End,
    E: Drop,
>(rt: &R, first: F, second: F)
    requires first { F.can_poll first }
    requires second { F.can_poll second }
{
    let start = Instant::now(rt).expect(rt, "the time");
    let mut driver = Driver::new(rt.alloc(), start).expect(rt, "memory");
    let timed = driver
        .handle()
        .timeout(rt, Duration::from_millis(20), holding(rt, first))
        .expect(rt, "memory");
    let late = start
        .checked_add(Duration::from_secs(3600))
        .expect(rt, "an hour is no great time");
    let second = holding(rt, second);
    abandons(rt, &Tasks::new(rt), &mut driver, late, timed, second);
}

fn abandons<
    R: Abort,
    O: Drop,
    L: Drop,
    T: Future<Output = Result<O, L>>,
    P: Drop,
    E: Drop,
    F: Future<Output = Answer<P, E>>,
>(rt: &R, tasks: &Tasks, driver: &mut Driver, late: Instant, mut timed: T, mut second: F)
    requires timed { T.can_poll timed }
    requires second { F.can_poll second }
{
    let Tasks { one, two } = tasks;
    assert!(rt; rests(one, &mut timed) && rests(two, &mut second));
    let _ = one.enter(|cx| driver.turn(cx, late));
    assert!(rt; one.is_woken() && !two.is_woken());
    assert!(rt; matches!(one.poll(&mut timed), Poll::Ready(Err(_))));
    // As in Rust a timeout keeps its future until it is dropped itself.
    assert!(rt; !two.is_woken());
    drop(timed);
    assert!(rt; two.is_woken());
    assert!(rt; has(two, &mut second));
}

// A further wait with the same bell: after one that was not ready yet, which it ends and whose place it does not have, and
// after one that was ready.
#[test]
fn a_wait_begins_again(rt: HostRuntime) {
    let semaphore = shared(&rt, 1);
    let (first, second) = (acquire(&rt, &semaphore, 2), acquire(&rt, &semaphore, 1));
    let further = (acquire(&rt, &semaphore, 1), acquire(&rt, &semaphore, 2));
    begins_again(&rt, &*semaphore, first, second, further);
}

fn begins_again<
    R: Wait + RandomSource + AllocGlobal + Abort,
    F: Waits<Bell, Result<P, E>>,
    P: End,
    E: Drop,
>(rt: &R, semaphore: &Semaphore<Bell>, first: F, second: F, further: (F, F))
    requires first { F.can_poll first }
    requires second { F.can_poll second }
    requires next { F.can_poll further.0 }
    requires last { F.can_poll further.1 }
{
    let tasks = Tasks::new(rt);
    let (next, last) = further;
    let mut first = holding(rt, first);
    is_ended_by_the_next(rt, &tasks, &mut first, holding(rt, second), next);
    assert!(rt; semaphore.available_permits(rt) == 1);
    is_done_again(rt, &tasks.one, semaphore, &mut first, last);
    assert!(rt; semaphore.available_permits(rt) == 2);
}

// One that was not ready is ended by the next, which stands behind those who wait by then.
fn is_ended_by_the_next<R: Wait + Abort, F: Waits<Bell, Result<P, E>>, P: End, E: Drop>(
    rt: &R,
    tasks: &Tasks,
    first: &mut TryHolding<'_, R, F, P, E>,
    mut second: TryHolding<'_, R, F, P, E>,
    next: F,
)
    requires first { IsSomeAnd first.old.waiting.wait F.can_poll }
    requires second { IsSomeAnd second.waiting.wait F.can_poll }
    requires next { F.can_poll next }
{
    let Tasks { one, two } = tasks;
    assert!(rt; is_pending(one, first) && is_pending(two, &mut second));
    assert!(rt; !two.is_woken());
    first.restart(next);
    assert!(rt; two.is_woken() && is_pending(one, first) && !one.is_woken());
    assert!(rt; is_granted(two, &mut second));
    assert!(rt; one.is_woken());
    assert!(rt; is_granted(one, first));
}

// One that was ready is done with, and the next waits for one permit more than are there.
fn is_done_again<R: Wait + Abort, F: Waits<Bell, Result<P, E>>, P: End, E: Drop>(
    rt: &R,
    task: &MockTask,
    semaphore: &Semaphore<Bell>,
    first: &mut TryHolding<'_, R, F, P, E>,
    next: F,
)
    requires { F.can_poll next }
{
    first.restart(next);
    assert!(rt; is_pending(task, first) && !task.is_woken());
    assert!(rt; semaphore.release(rt, 1).is_ok() && task.is_woken());
    assert!(rt; is_granted(task, first));
}
