use crate::guards::{bell, granted, hears, share, waits};
use crate::merging::merged;
use mea_base::Overflow;
use mea_sync::semaphore::{Closed, Semaphore, SemaphorePermit};
use mea_test_support::{Bell, Count, end, found, gives, rung};
use mea_wait::{End, Waits};
use std::process::Abort;
use std::sync::{Arc, Wait};

// Whether a wait for permits to be forgotten is ready at once; else it is ended.
fn forgets<R: Wait, F: Waits<Bell, Result<(), Closed>>>(rt: &R, wait: F, count: &Count) -> bool
    requires { F.can_poll wait }
{
    gives(rt, Some(wait), count) == Some(Ok(()))
}

// Whether so many permits are free.
fn has_free<R: Wait>(rt: &R, semaphore: &Semaphore<Bell>, permits: usize) -> bool {
    semaphore.available_permits(rt) == permits
}

// Whether so many permits can be had. They are given back.
fn can_take<R: Wait>(rt: &R, semaphore: &Semaphore<Bell>, permits: usize) -> bool {
    end(rt, semaphore.try_acquire(rt, permits))
}

// A release pays the first that waits, and its end the second: each is woken once, in this order. What an abandoned acquire was
// paid goes to the next. A close wakes who waits, who then hears of it.
#[test]
fn waits_of_a_semaphore(rt: HostRuntime) {
    let one = bell(&rt);
    let two = bell(&rt);
    let three = bell(&rt);
    let four = bell(&rt);
    let five = bell(&rt);
    let semaphore: Semaphore<Bell> = Semaphore::new(rt.alloc(), 0);
    let callers = (semaphore.acquire(1), semaphore.acquire(1));
    wakes_the_first(&rt, &semaphore, callers, (&one, &two));
    assert!(rt; semaphore.release(&rt, 1) == Ok(()));
    let callers = (semaphore.acquire(3), semaphore.acquire(2));
    pays_the_next(&rt, &semaphore, callers, (&three, &four));
    is_heard(&rt, &semaphore, semaphore.acquire(1), &five);
}

fn wakes_the_first<R: Wait + Abort, F: Waits<Bell, Result<P, Closed>>, P: End>(
    rt: &R,
    semaphore: &Semaphore<Bell>,
    callers: (F, F),
    bells: (&Count, &Count),
)
    requires first { F.can_poll callers.0 }
    requires second { F.can_poll callers.1 }
{
    let (one, two) = bells;
    let (first, second) = callers;
    let first = waits(rt, first, one);
    let second = waits(rt, second, two);
    assert!(rt; semaphore.release(rt, 1) == Ok(()));
    assert!(rt; (rung(one), rung(two)) == (1, 0));
    let permit = granted(rt, first, one);
    assert!(rt; has_free(rt, semaphore, 0));
    assert!(rt; end(rt, permit));
    assert!(rt; (rung(one), rung(two)) == (1, 1));
    assert!(rt; end(rt, granted(rt, second, two)));
    assert!(rt; has_free(rt, semaphore, 1));
}

fn pays_the_next<R: Wait + Abort, F: Waits<Bell, Result<P, Closed>>, P: End>(
    rt: &R,
    semaphore: &Semaphore<Bell>,
    callers: (F, F),
    bells: (&Count, &Count),
)
    requires first { F.can_poll callers.0 }
    requires second { F.can_poll callers.1 }
{
    let (one, two) = bells;
    let (first, second) = callers;
    let first = waits(rt, first, one);
    let second = waits(rt, second, two);
    assert!(rt; rung(two) == 0);
    assert!(rt; end(rt, first));
    assert!(rt; (rung(one), rung(two)) == (0, 1));
    assert!(rt; end(rt, granted(rt, second, two)));
    assert!(rt; has_free(rt, semaphore, 2));
}

// Both permits are held, and come back as before once it is closed.
fn is_heard<R: Wait + Abort, F: Waits<Bell, Result<P, Closed>>, P: End>(
    rt: &R,
    semaphore: &Semaphore<Bell>,
    caller: F,
    bell: &Count,
)
    requires { F.can_poll caller }
{
    let held = semaphore.try_acquire(rt, 2);
    let first = waits(rt, caller, bell);
    assert!(rt; !semaphore.is_closed(rt));
    semaphore.close(rt);
    assert!(rt; semaphore.is_closed(rt));
    assert!(rt; rung(bell) == 1);
    assert!(rt; hears(rt, first, bell));
    assert!(rt; end(rt, held));
    assert!(rt; has_free(rt, semaphore, 2));
    assert!(rt; !can_take(rt, semaphore, 1));
    assert!(rt; !semaphore.try_acquire_and_forget(rt, 1));
}

// Permits are split, merged, forgotten and given back.
#[test]
fn permits_split_and_merge(rt: HostRuntime) {
    let semaphore = Semaphore::new(rt.alloc(), 6);
    let other = Semaphore::new(rt.alloc(), 1);
    assert!(rt; merged(&rt, &semaphore, &other) == Some(3));
    assert!(rt; has_free(&rt, &other, 1));
    let permit = splits(&rt, &semaphore, semaphore.try_acquire(&rt, 4));
    assert!(rt; has_free(&rt, &semaphore, 4));
    permit.forget(&rt);
    assert!(rt; has_free(&rt, &semaphore, 4));
    are_forgotten(&rt, &semaphore);
}

// A permit of four: one is split off and merged again, and two are split off and given back.
fn splits<'s, R: Wait + Abort>(
    rt: &R,
    semaphore: &'s Semaphore<Bell>,
    permit: Option<SemaphorePermit<'s, Bell>>,
) -> SemaphorePermit<'s, Bell> {
    let mut permit = permit.expect(rt, "four permits");
    assert!(rt; has_free(rt, semaphore, 2));
    assert!(rt; !can_take(rt, semaphore, 3));
    assert!(rt; !end(rt, permit.split(5)));
    let one = permit.split(1).expect(rt, "one of four");
    assert!(rt; (one.permits(), permit.permits()) == (1, 3));
    permit.merge(one);
    assert!(rt; permit.permits() == 4);
    let two = permit.split(2).expect(rt, "two of four");
    if let Err(back) = permit.try_merge(two) {
        back.forget(rt);
    }
    assert!(rt; permit.permits() == 4);
    assert!(rt; end(rt, permit.split(2)));
    permit
}

fn are_forgotten<R: Wait + Abort>(rt: &R, semaphore: &Semaphore<Bell>) {
    assert!(rt; semaphore.try_acquire_and_forget(rt, 1));
    assert!(rt; semaphore.forget(rt, 2) == 2);
    assert!(rt; has_free(rt, semaphore, 1));
    assert!(rt; semaphore.forget_exact(rt, 2) == Ok(()));
    assert!(rt; semaphore.release(rt, 3) == Ok(()));
    assert!(rt; has_free(rt, semaphore, 2));
    assert!(rt; semaphore.release(rt, usize::MAX - 1) == Err(Overflow));
    assert!(rt; has_free(rt, semaphore, 2));
    // What was forgotten lives no more, so the greatest number is reached.
    assert!(rt; semaphore.release(rt, usize::MAX - 2) == Ok(()));
    assert!(rt; has_free(rt, semaphore, usize::MAX));
}

// The forms that own a share of the semaphore, and those that forget.
#[test]
fn owned_and_forgetting_forms(rt: HostRuntime) {
    let bell = bell(&rt);
    let semaphore = Arc::new(rt.alloc(), Semaphore::new(rt.alloc(), 5)).expect(&rt, "memory");
    merge(&rt, &semaphore);
    assert!(rt; has_free(&rt, &semaphore, 5));
    owns(&rt, &semaphore, &bell);
    forgetting(&rt, &semaphore, &bell);
}

fn owns<R: Wait + Abort>(rt: &R, semaphore: &Arc<Semaphore<Bell>>, bell: &Count) {
    assert!(rt; share(rt, semaphore).try_acquire_owned_and_forget(rt, 1));
    let mut permit = share(rt, semaphore)
        .try_acquire_owned(rt, 3)
        .expect(rt, "three permits");
    assert!(rt; end(rt, found(permit.split(1))));
    assert!(rt; permit.permits() == 2);
    assert!(rt; has_free(rt, semaphore, 2));
    permit.end(rt);
    assert!(rt; has_free(rt, semaphore, 4));
    assert!(rt;
        end(
            rt,
            granted(rt, Some(share(rt, semaphore).acquire_owned(2)), bell)
        )
    );
}

fn forgetting<R: Wait + Abort>(rt: &R, semaphore: &Arc<Semaphore<Bell>>, bell: &Count) {
    assert!(rt; forgets(rt, semaphore.acquire_and_forget(1), bell));
    assert!(rt; forgets(rt, share(rt, semaphore).acquire_owned_and_forget(2), bell));
    assert!(rt; has_free(rt, semaphore, 1));
    assert!(rt; !forgets(rt, semaphore.acquire_and_forget(2), bell));
    assert!(rt; has_free(rt, semaphore, 1));
    assert!(rt; rung(bell) == 0);
    assert!(rt; semaphore.release(rt, usize::MAX) == Err(Overflow));
    assert!(rt; semaphore.release(rt, usize::MAX - 1) == Ok(()));
}

// Owned permits are split and merged.
fn merge<R: Wait + Abort>(rt: &R, semaphore: &Arc<Semaphore<Bell>>) {
    let mut permit = share(rt, semaphore)
        .try_acquire_owned(rt, 3)
        .expect(rt, "three permits");
    let one = found(permit.split(1)).expect(rt, "one of three");
    permit.merge(one);
    assert!(rt; permit.permits() == 3);
    let two = found(permit.split(2)).expect(rt, "two of three");
    if let Err(back) = permit.try_merge(two) {
        back.forget(rt);
    }
    assert!(rt; permit.permits() == 3);
    permit.end(rt);
}
