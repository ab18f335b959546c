use crate::task::{Call, Task};
use mea::End;
use mea::admission::{FairShare, FairSharePermit, ShareWait};
use std::hash::{BuildHasherDefault, FoldHasher};
use std::process::Abort;
use std::sync::Wait;

type Hasher = BuildHasherDefault<FoldHasher>;

type Limiter = FairShare<&'static str, Call, Hasher>;

// Whether there was something, which is ended.
fn ended<R: Wait, T: End>(rt: &R, value: Option<T>) -> bool {
    match value {
        Some(value) => {
            value.end(rt);
            true
        }
        None => false,
    }
}

// A request of a tenant that runs at once.
fn runs<'l, R: Wait>(
    rt: &R,
    limiter: &'l Limiter,
    task: &Task,
    tenant: &'static str,
) -> Option<FairSharePermit<'l, &'static str, Call, Hasher>> {
    match limiter.acquire(tenant) {
        Ok(wait) => task.now(rt, wait),
        Err(_) => None,
    }
}

// A request of a tenant that has to wait.
fn waits<'l, R: Wait>(
    rt: &R,
    limiter: &'l Limiter,
    task: &Task,
    tenant: &'static str,
) -> Option<ShareWait<'l, &'static str, Call, Hasher>> {
    match limiter.acquire(tenant) {
        Ok(wait) => task.queues(rt, wait),
        Err(_) => None,
    }
}

// Two requests run at a time. A tenant with many waiting requests keeps no other out: who holds least is next.
#[test]
fn a_fair_limiter_by_tenant(rt: HostRuntime) {
    let (busy, quiet) = (Task::new(&rt), Task::new(&rt));
    let limiter = Limiter::new(rt.alloc(), 2);
    the_quiet_is_next(&rt, &limiter, &busy, &quiet);
    assert!(rt; limiter.available_permits(&rt) == 2);
}

fn the_quiet_is_next<R: Wait + Abort>(rt: &R, limiter: &Limiter, busy: &Task, quiet: &Task) {
    let first = runs(rt, limiter, busy, "busy");
    let second = runs(rt, limiter, busy, "busy");
    let third = waits(rt, limiter, busy, "busy");
    let other = waits(rt, limiter, quiet, "quiet");
    // The quiet tenant came last and is first, since it holds nothing.
    assert!(rt; ended(rt, first));
    assert!(rt; (quiet.calls(), busy.calls()) == (1, 0));
    assert!(rt; ended(rt, other));
    assert!(rt; busy.calls() == 1);
    assert!(rt; ended(rt, third));
    assert!(rt; ended(rt, second));
}
