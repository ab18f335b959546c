use crate::guards::{bell, finds, sets, share, shows};
use mea_sync::mutex::Mutex;
use mea_test_support::{Bell, Count, end, gives, pends, rung};
use mea_wait::{End, Waits};
use std::ops::DerefMut;
use std::process::Abort;
use std::sync::{Arc, Wait};

// Whether the lock is free.
fn is_free<R: Wait>(rt: &R, mutex: &Mutex<u64, Bell>) -> bool {
    end(rt, mutex.try_lock(rt))
}

// The lock goes to the first that waits, with the value as it was left. Who has the whole mutex writes its value with no guard.
#[test]
fn a_mutex_is_handed_on(rt: HostRuntime) {
    let one = bell(&rt);
    let two = bell(&rt);
    let mut mutex: Mutex<u64, Bell> = Mutex::new(rt.alloc(), 5);
    let guard = mutex.try_lock(&rt);
    assert!(rt; !is_free(&rt, &mutex));
    is_handed_on(&rt, guard, (mutex.lock(), mutex.lock()), (&one, &two));
    assert!(rt; mutex.get_mut() == Some(&mut 7));
    match mutex.get_mut() {
        Some(value) => *value = 6,
        None => assert!(rt; false),
    }
    assert!(rt; mutex.into_inner() == Some(6));
}

fn is_handed_on<R: Wait + Abort, G: End + DerefMut<Target = u64>, F: Waits<Bell, G>>(
    rt: &R,
    guard: Option<G>,
    callers: (F, F),
    bells: (&Count, &Count),
)
    requires first { F.can_poll callers.0 }
    requires second { F.can_poll callers.1 }
{
    let (one, two) = bells;
    let (first, second) = callers;
    let first = pends(rt, first, one);
    let second = pends(rt, second, two);
    assert!(rt; sets(rt, guard, 7));
    assert!(rt; (rung(one), rung(two)) == (1, 0));
    // The first is abandoned once it was granted: the second has its turn.
    assert!(rt; end(rt, first));
    assert!(rt; rung(two) == 1);
    assert!(rt; finds(rt, second, two) == Some(7));
}

// The forms that own a share of the mutex.
#[test]
fn owned_guards(rt: HostRuntime) {
    let bell = bell(&rt);
    let mutex = Arc::new(rt.alloc(), Mutex::new(rt.alloc(), 1)).expect(&rt, "memory");
    are_owned(&rt, &mutex, &bell);
}

fn are_owned<R: Wait + Abort>(rt: &R, mutex: &Arc<Mutex<u64, Bell>>, bell: &Count) {
    assert!(rt; sets(rt, share(rt, mutex).try_lock_owned(rt), 3));
    let guard = gives(rt, Some(share(rt, mutex).lock_owned()), bell);
    assert!(rt; !is_free(rt, mutex));
    assert!(rt; shows(rt, guard) == Some(3));
    assert!(rt; is_free(rt, mutex));
}
