use crate::claims::{answer_of, mine, value_of};
use crate::counts::bell;
use crate::inits::{Fails, Gives};
use mea_keep::Claimed;
use mea_keep::singleflight::Group;
use mea_test_support::{Bell, Count, end};
use mea_wait::{End, Waits};
use std::hash::{BuildHasherDefault, FoldHasher};
use std::process::Abort;
use std::sync::Wait;

/// A group of numbers by number.
pub(crate) type Flights = Group<u64, u64, BuildHasherDefault<FoldHasher>, Bell>;

// What the group gives under key 5 to who computes this value.
fn worked<R: Wait>(rt: &R, group: &Flights, value: u64, bell: &Count) -> Option<u64> {
    value_of(rt, group.work(5, Gives(value)), bell)
}

// The error of an initialiser under key 5.
fn failed<R: Wait>(rt: &R, group: &Flights, bell: &Count) -> Option<Result<u64, u8>> {
    answer_of(rt, group.try_work(5, Fails), bell)
}

// A key that is forgotten is computed anew beside the call that runs, and so does the next call compute anew. An initialiser may
// have an error.
#[test]
fn a_key_is_forgotten(rt: HostRuntime) {
    let one = bell(&rt);
    let two = bell(&rt);
    let group = Flights::new(rt.alloc());
    is_forgotten(&rt, &group, group.claim(5), &one, &two);
    assert!(rt; failed(&rt, &group, &one) == Some(Err(4)));
}

fn is_forgotten<R: Wait + Abort, F: Waits<Bell, Claimed<u64, C>>, C: End>(
    rt: &R,
    group: &Flights,
    caller: F,
    one: &Count,
    two: &Count,
)
    requires { F.can_poll caller }
{
    let first = mine(rt, Some(caller), one);
    group.forget(rt, &5);
    assert!(rt; worked(rt, group, 51, two) == Some(51));
    assert!(rt; worked(rt, group, 52, two) == Some(52));
    assert!(rt; end(rt, first));
}
