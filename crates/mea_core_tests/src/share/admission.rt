use crate::play::answers;
use crate::share::play::Reply::{Done, Number, Overflow, Pending};
use crate::share::play::Step::{Ask, End, Free, Poll, Release, Try, Waiters, Wake, Weigh, Weight};
use crate::share::play::{Reply, Room, Step};
use mea_share_core::FairCore;
use mea_test_support::{Collides, differs_at};
use std::alloc::{AllocError, Global};
use std::hash::{BuildHasher, BuildHasherDefault, FoldHasher};
use std::process::Abort;

type Core = FairCore<u64, u64, BuildHasherDefault<FoldHasher>>;

// Scripts, each with the permits of its core and the number of who waits first.
const SCRIPTS: &[(usize, u64, &[(Step, Reply)])] = &[
    // Who waits longer stands back where its key holds more.
    (
        2,
        0,
        &[
            (Try(1), Done),
            (Try(1), Done),
            (Try(2), Pending),
            (Ask(1), Done),
            (Poll(0, 10), Pending),
            (Ask(2), Done),
            (Poll(1, 11), Pending),
            (Release(1), Done),
            (Wake, Number(11)),
            (Wake, Pending),
            (Poll(1, 12), Done),
            (Poll(0, 13), Pending),
            (Wake, Pending),
            (Waiters, Number(1)),
            (Release(2), Done),
            (Wake, Number(13)),
        ],
    ),
    // Keys 1 and 2 hold a permit, key 3 none. Five acquires wait, of the keys 1, 1, 2, 2 and 3, with the wakers 0 to 4, and
    // five permits of a further key come back. Key 3 holds nothing and is first. Of weight 2, key 2 takes another before it
    // is equal with key 1, of which one waits longer, and then is below it.
    (
        7,
        0,
        &[
            (Weigh(2, 2), Done),
            (Weight(2), Number(2)),
            (Weight(1), Number(1)),
            (Try(1), Done),
            (Try(2), Done),
            (Try(4), Done),
            (Try(4), Done),
            (Try(4), Done),
            (Try(4), Done),
            (Try(4), Done),
            (Ask(1), Done),
            (Ask(1), Done),
            (Ask(2), Done),
            (Ask(2), Done),
            (Ask(3), Done),
            (Poll(0, 0), Pending),
            (Poll(1, 1), Pending),
            (Poll(2, 2), Pending),
            (Poll(3, 3), Pending),
            (Poll(4, 4), Pending),
            (Release(4), Done),
            (Release(4), Done),
            (Release(4), Done),
            (Release(4), Done),
            (Release(4), Done),
            (Wake, Number(4)),
            (Wake, Number(2)),
            (Wake, Number(0)),
            (Wake, Number(3)),
            (Wake, Number(1)),
            (Wake, Pending),
        ],
    ),
    // An acquire that is ended new or while it waits wakes nobody; the permit of one that was admitted goes to who is next,
    // and is free with nobody waiting.
    (
        1,
        0,
        &[
            (Ask(1), Done),
            (End(0), Done),
            (Free, Number(1)),
            (Try(1), Done),
            (Ask(2), Done),
            (Poll(1, 10), Pending),
            (Ask(1), Done),
            (Poll(2, 11), Pending),
            (Ask(2), Done),
            (Poll(3, 12), Pending),
            (End(1), Done),
            (Wake, Pending),
            (Waiters, Number(2)),
            (Release(1), Done),
            (Wake, Number(11)),
            (End(2), Done),
            (Wake, Number(12)),
            (Waiters, Number(0)),
            (End(3), Done),
            (Wake, Pending),
            (Free, Number(1)),
            (Release(1), Done),
            (Free, Number(1)),
        ],
    ),
    // The last number is given to nobody, and what is refused changes nothing. A free permit needs no number.
    (
        1,
        u64::MAX,
        &[
            (Ask(1), Done),
            (Ask(1), Done),
            (Poll(0, 10), Done),
            (Poll(1, 11), Overflow(11)),
            (Free, Number(0)),
            (Waiters, Number(0)),
            (Wake, Pending),
            (Release(1), Done),
            (Free, Number(1)),
            (Poll(1, 12), Done),
            (Free, Number(0)),
        ],
    ),
];

// An admission of so many permits, which are not 0.
fn core(alloc: Global, permits: usize, sequence: u64) -> Option<Core> {
    if permits == 0 {
        return None;
    }
    let hasher = BuildHasherDefault::new();
    Some(FairCore::at_sequence(alloc, permits, hasher, sequence))
}

// The place of the first call that tells something else, of an admission of so many permits.
fn differs(
    rt: &(impl Abort + AllocGlobal),
    permits: usize,
    sequence: u64,
    script: &[(Step, Reply)],
) -> Option<usize> {
    let core = core(rt.alloc(), permits, sequence).expect(rt, "a core");
    differs_at(Room::new(rt.alloc(), core), script)
}

#[test]
fn calls_of_an_admission(rt: HostRuntime) {
    for (permits, sequence, script) in SCRIPTS {
        assert_eq!(rt; differs(&rt, *permits, *sequence, script), None);
    }
}

// Each of 64 keys takes a permit and waits for another, and a further key gives a permit back for each.
fn crowd(alloc: Global) -> Result<Vec<Step>, AllocError> {
    let mut script = Vec::new(alloc);
    for key in 0..64u64 {
        script.extend_from_slice(&[Weigh(key, 1 + key % 2), Try(key), Try(64), Ask(key)])?;
    }
    for key in 0..64u64 {
        script.extend_from_slice(&[Poll(key as usize, key)])?;
    }
    for key in 0..64u64 {
        script.extend_from_slice(&[Release(64), Wake, Weight(key)])?;
    }
    for key in 0..64u64 {
        script.extend_from_slice(&[Poll(key as usize, key), Release(key), Free])?;
    }
    Ok(script)
}

fn told_of<S: BuildHasher + Drop>(
    alloc: Global,
    core: FairCore<u64, u64, S>,
    script: &[Step],
) -> Vec<Reply> {
    answers(alloc, Room::new(alloc, core), script)
}

// With hashes that are all equal.
fn told_alike(alloc: Global, script: &[Step]) -> Vec<Reply> {
    told_of(alloc, FairCore::with_hasher(alloc, 128, Collides), script)
}

fn told(alloc: Global, script: &[Step]) -> Vec<Reply> {
    let core: Core = FairCore::new(alloc, 128);
    told_of(alloc, core, script)
}

// Hashes that are all equal change no answer. Of those of weight 2 that wait, the oldest is first.
#[test]
fn hashes_change_nothing(rt: HostRuntime) {
    let script = crowd(rt.alloc()).expect(&rt, "memory");
    let alike = told_alike(rt.alloc(), &script);
    assert!(rt; alike == told(rt.alloc(), &script));
    assert_eq!(rt; alike.len(), 704);
    assert!(rt; alike.get(321).copied() == Some(Number(1)));
    assert!(rt; alike.get(417).copied() == Some(Number(0)));
    assert!(rt; alike.last().copied() == Some(Number(64)));
}
