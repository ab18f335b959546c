ghost use Rattle.std.specs.Prelude.{IfSome};

use crate::guards::{bell, finds, sets, share};
use mea_sync::condvar::{Condvar, CondvarWait};
use mea_sync::mutex::Mutex;
use mea_test_support::{Bell, Count, end, gives, pends, rung};
use mea_wait::{End, Waits};
use std::ops::Deref;
use std::process::Abort;
use std::sync::{Arc, Wait};

// A wait of who has the lock, which is given back by it.
fn waits<'a, R: Wait>(
    rt: &R,
    of: &'a Condvar<Bell>,
    mutex: &'a Mutex<u64, Bell>,
    count: &Count,
) -> Option<CondvarWait<'a, u64, Bell>> {
    let guard = mutex.try_lock(rt)?;
    pends(rt, of.wait(guard), count)
}

// A wait gives the lock back, is woken by the notification, and has the guard again. It keeps its own mutex, so waits of two mutexes
// go by one condition variable.
#[test]
fn waits_are_notified(rt: HostRuntime) {
    let one = bell(&rt);
    let two = bell(&rt);
    let three = bell(&rt);
    let first = Mutex::new(rt.alloc(), 1);
    let second = Mutex::new(rt.alloc(), 2);
    let condvar = Condvar::new(rt.alloc());
    let waiting = (
        waits(&rt, &condvar, &first, &one),
        waits(&rt, &condvar, &first, &two),
    );
    passes_that_on(&rt, &condvar, waiting, (&one, &two));
    assert!(rt; end(&rt, first.try_lock(&rt)));
    let waiting = (
        waits(&rt, &condvar, &first, &three),
        waits(&rt, &condvar, &second, &three),
    );
    keep_their_mutex(&rt, &condvar, waiting, &three);
}

// Of two that wait the first is notified, and abandoned then: what was for it alone goes to the second.
fn passes_that_on<R: Wait + Abort, G: End, F: Waits<Bell, G>>(
    rt: &R,
    condvar: &Condvar<Bell>,
    waiting: (Option<F>, Option<F>),
    bells: (&Count, &Count),
)
    requires { IfSome waiting.1 F.can_poll }
{
    let (one, two) = bells;
    let (first, second) = waiting;
    condvar.notify_one(rt);
    assert!(rt; (rung(one), rung(two)) == (1, 0));
    assert!(rt; end(rt, first));
    assert!(rt; rung(two) == 1);
    assert!(rt; end(rt, gives(rt, second, two)));
}

// A wait with a condition goes on until it does not hold.
#[test]
fn a_wait_goes_on_while_its_condition_holds(rt: HostRuntime) {
    let bell = bell(&rt);
    let mutex: Mutex<u64, Bell> = Mutex::new(rt.alloc(), 0);
    let mutex = Arc::new(rt.alloc(), mutex).expect(&rt, "memory");
    let condvar = Condvar::new(rt.alloc());
    let guard = share(&rt, &mutex)
        .try_lock_owned(&rt)
        .expect(&rt, "a free lock");
    let wait = condvar.wait_while_owned(guard, |value: &mut u64| *value < 2);
    goes_on_while_it_holds(&rt, &condvar, &*mutex, wait, &bell);
}

fn goes_on_while_it_holds<R: Wait + Abort, G: End + Deref<Target = u64>, F: Waits<Bell, G>>(
    rt: &R,
    condvar: &Condvar<Bell>,
    mutex: &Mutex<u64, Bell>,
    wait: F,
    bell: &Count,
)
    requires { F.can_poll wait }
{
    let wait = pends(rt, wait, bell).expect(rt, "a wait");
    condvar.notify_all(rt);
    assert!(rt; rung(bell) == 1);
    let wait = pends(rt, wait, bell);
    assert!(rt; sets(rt, mutex.try_lock(rt), 2));
    condvar.notify_all(rt);
    assert!(rt; rung(bell) == 2);
    assert!(rt; finds(rt, wait, bell) == Some(2));
}

// A wait that owns a share of its mutex gives the lock back, is woken by the notification, and has the guard again, with the value
// as it was left.
#[test]
fn a_wait_owns_a_share_of_its_mutex(rt: HostRuntime) {
    let bell = bell(&rt);
    let mutex: Mutex<u64, Bell> = Mutex::new(rt.alloc(), 0);
    let mutex = Arc::new(rt.alloc(), mutex).expect(&rt, "memory");
    let condvar = Condvar::new(rt.alloc());
    let guard = share(&rt, &mutex)
        .try_lock_owned(&rt)
        .expect(&rt, "a free lock");
    is_woken(&rt, &condvar, &*mutex, condvar.wait_owned(guard), &bell);
}

fn is_woken<R: Wait + Abort, G: End + Deref<Target = u64>, F: Waits<Bell, G>>(
    rt: &R,
    condvar: &Condvar<Bell>,
    mutex: &Mutex<u64, Bell>,
    wait: F,
    bell: &Count,
)
    requires { F.can_poll wait }
{
    let wait = pends(rt, wait, bell);
    assert!(rt; sets(rt, mutex.try_lock(rt), 2));
    assert!(rt; rung(bell) == 0);
    condvar.notify_one(rt);
    assert!(rt; rung(bell) == 1);
    assert!(rt; finds(rt, wait, bell) == Some(2));
}

fn keep_their_mutex<R: Wait + Abort, G: End + Deref<Target = u64>, F: Waits<Bell, G>>(
    rt: &R,
    condvar: &Condvar<Bell>,
    waiting: (Option<F>, Option<F>),
    bell: &Count,
)
    requires first { IfSome waiting.0 F.can_poll }
    requires second { IfSome waiting.1 F.can_poll }
{
    let (one, two) = waiting;
    condvar.notify_all(rt);
    assert!(rt; rung(bell) == 2);
    assert!(rt; finds(rt, two, bell) == Some(2));
    assert!(rt; finds(rt, one, bell) == Some(1));
}
