//! A thread that waits again and again by one executor and one bell.
use futures::future::{pending, ready};
use mea_futures::{Bell, Blocker};
use mea_sync::semaphore::Semaphore;
use mea_wait::{End, Waits};
use std::process::Abort;
use std::random::RandomSource;
use std::sync::Wait;
use std::thread::Threads;
use std::{io, thread};

// What a wait for a permit came to.
#[derive(Drop)]
enum Came {
    Permit,
    Closed,
    Late,
    Refused,
}

// The same of an answer, whose permit is given back.
fn told<R: Wait, P: End, E: Drop>(rt: &R, answer: io::Result<Option<Result<P, E>>>) -> Came {
    match answer {
        Ok(Some(Ok(permit))) => {
            permit.end(rt);
            Came::Permit
        }
        Ok(Some(Err(_))) => Came::Closed,
        Ok(None) => Came::Late,
        Err(_) => Came::Refused,
    }
}

// Waits for the one permit are late while it is held, and have it while it is free.
fn waits_again<R: Wait + Abort, F: Waits<Bell, Result<P, E>>, P: End, E: Drop>(
    rt: &R,
    blocker: &mut Blocker,
    semaphore: &Semaphore<Bell>,
    while_held: (F, F),
    while_free: (F, F),
)
    requires first { F.can_poll while_held.0 }
    requires second { F.can_poll while_held.1 }
    requires third { F.can_poll while_free.0 }
    requires fourth { F.can_poll while_free.1 }
{
    let held = semaphore.try_acquire(rt, 1);
    let first = told(rt, blocker.block_before(rt, while_held.0, ready(())));
    let second = told(rt, blocker.block_before(rt, while_held.1, ready(())));
    held.end(rt);
    assert!(rt; matches!((first, second), (Came::Late, Came::Late)));
    let third = told(rt, blocker.block_before(rt, while_free.0, pending()));
    let fourth = told(rt, blocker.block(rt, while_free.1).map(Some));
    assert!(rt; matches!((third, fourth), (Came::Permit, Came::Permit)));
    assert!(rt; semaphore.available_permits(rt) == 1);
}

#[test]
fn a_wait_that_was_given_up_is_made_again(rt: HostRuntime) {
    let semaphore = Semaphore::new(rt.alloc(), 1);
    let mut blocker = Blocker::new(&rt).expect(&rt, "memory");
    let while_held = (semaphore.acquire(1), semaphore.acquire(1));
    let while_free = (semaphore.acquire(1), semaphore.acquire(1));
    waits_again(&rt, &mut blocker, &semaphore, while_held, while_free);
}

// Whether waits for a permit of each, one after the other, came to their ends.
fn passes<R: Wait + RandomSource + AllocGlobal>(
    rt: &R,
    one: &Semaphore<Bell>,
    two: &Semaphore<Bell>,
) -> bool {
    let Ok(mut blocker) = Blocker::new(rt) else {
        return false;
    };
    matches!(blocker.block(rt, one.acquire_and_forget(1)), Ok(Ok(())))
        && matches!(blocker.block(rt, two.acquire_and_forget(1)), Ok(Ok(())))
}

// Whether it passes where another thread adds the permits.
fn is_woken<R: Wait + Threads + Sync + RandomSource + AllocGlobal>(
    rt: &R,
    one: &Semaphore<Bell>,
    two: &Semaphore<Bell>,
) -> bool {
    let (passed, added) = thread::join(
        rt,
        || passes(rt, one, two),
        || one.release(rt, 1).is_ok() && two.release(rt, 1).is_ok(),
    );
    passed && added
}

// Another thread wakes it each time.
#[test]
fn it_is_woken_each_time(rt: HostRuntime) {
    for _ in 0..20u32 {
        let one = Semaphore::new(rt.alloc(), 0);
        let two = Semaphore::new(rt.alloc(), 0);
        assert!(rt; is_woken(&rt, &one, &two));
    }
}
