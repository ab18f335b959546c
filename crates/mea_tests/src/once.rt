use crate::claims::{gave, mine, queues, there};
use crate::counts::bell;
use mea_keep::once::Once;
use mea_keep::{Claim, Claimed};
use mea_test_support::{Bell, Count, end, gives, goes_on, rung};
use mea_wait::{End, Waits};
use std::process::Abort;
use std::sync::{Arc, Wait};

// A call runs once; who waits for it is woken first, and then the next caller. A wait that ended before keeps no waker and is not
// woken.
#[test]
fn a_call_runs_once(rt: HostRuntime) {
    let one = bell(&rt);
    let two = bell(&rt);
    let three = bell(&rt);
    let once = Once::new(rt.alloc());
    let waits = (once.wait(), once.wait());
    let callers = (once.claim(), once.claim());
    runs_once(&rt, &once, waits, callers, (&one, &two, &three));
    assert!(rt; gives(&rt, Some(once.wait()), &one) == Some(()));
}

fn runs_once<
    R: Wait + Abort,
    D: Waits<Bell, ()>,
    F: Waits<Bell, Claimed<(), C>>,
    C: Claim<(), (), G>,
    G: End,
>(rt: &R, once: &Once<Bell>, waits: (D, D), callers: (F, F), bells: (&Count, &Count, &Count))
    requires ended { D.can_poll waits.0 }
    requires done { D.can_poll waits.1 }
    requires first { F.can_poll callers.0 }
    requires second { F.can_poll callers.1 }
{
    let (one, two, three) = bells;
    let (ended, done) = waits;
    let (first, second) = callers;
    assert!(rt; end(rt, goes_on(rt, ended, two)));
    assert!(rt; Arc::strong_count(two) == 1);
    let done = goes_on(rt, done, one);
    let claim = mine(rt, Some(first), two);
    let second = queues(rt, second, three);
    assert!(rt; !once.is_completed(rt));
    assert!(rt; gave(rt, claim, ()) == Some(()));
    assert!(rt; (rung(one), rung(two), rung(three)) == (1, 0, 1));
    assert!(rt; there(rt, second, three) == Some(()));
    assert!(rt; once.is_completed(rt));
    assert!(rt; end(rt, done));
}
