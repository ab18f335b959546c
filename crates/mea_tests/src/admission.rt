use crate::counts::bell;
use mea::End;
use mea::admission::{FairShare, OwnedShareWait};
use mea_test_support::{Bell, Count, end, found, gives, pends, rung};
use std::hash::{BuildHasherDefault, FoldHasher};
use std::num::NonZeroU64;
use std::process::Abort;
use std::sync::{Arc, Wait};

type Hasher = BuildHasherDefault<FoldHasher>;

type Share = FairShare<u64, Bell, Hasher>;

// Weights, the forms that own a share, and what is told of who waits.
#[test]
fn a_key_has_a_weight(rt: HostRuntime) {
    let bell = bell(&rt);
    let share = Share::with_hasher(rt.alloc(), 1, BuildHasherDefault::new());
    let share = Arc::new(rt.alloc(), share).expect(&rt, "memory");
    has_a_weight(&rt, &share);
    is_owned(&rt, &share, &bell);
}

fn has_a_weight<R: Wait + Abort>(rt: &R, share: &Share) {
    assert!(rt; share.weight(rt, 7) == Ok(1));
    let weight = NonZeroU64::new(3).unwrap_or(NonZeroU64::MIN);
    assert!(rt; share.set_weight(rt, 7, weight).is_ok());
    assert!(rt; share.weight(rt, 7) == Ok(3));
}

fn is_owned<R: Wait + Abort>(rt: &R, share: &Arc<Share>, bell: &Count) {
    let one = Arc::try_clone(share).expect(rt, "memory");
    let permit = found(one.try_acquire_owned(rt, 7));
    assert!(rt; !end(rt, found(share.try_acquire(rt, 8))));
    let wait = waits_owned(rt, share, 8, bell);
    assert!(rt; share.num_waiters(rt) == 1);
    assert!(rt; share.available_permits(rt) == 0);
    assert!(rt; end(rt, permit));
    assert!(rt; rung(bell) == 1);
    assert!(rt; granted(rt, wait, bell) == Some(8));
    assert!(rt; end(rt, found(share.try_acquire(rt, 8))));
    assert!(rt; share.available_permits(rt) == 1);
}

// A wait for a permit of this key that owns a share, polled by who is to wait.
fn waits_owned<R: Wait>(
    rt: &R,
    share: &Arc<Share>,
    key: u64,
    count: &Count,
) -> Option<OwnedShareWait<u64, Bell, Hasher>> {
    let share = Arc::try_clone(share).ok()?;
    match share.acquire_owned(key) {
        Ok(wait) => pends(rt, wait, count),
        Err(_) => None,
    }
}

// The key of the permit that a wait gives. The permit is ended.
fn granted<R: Wait>(
    rt: &R,
    wait: Option<OwnedShareWait<u64, Bell, Hasher>>,
    count: &Count,
) -> Option<u64> {
    let permit = gives(rt, wait, count)?;
    let key = *permit.key();
    permit.end(rt);
    Some(key)
}
