use crate::computing::Manner::Settles;
use crate::computing::{
    Computing, Room, Script, Scripted, Step, differs, group_differs, map_differs,
};
use crate::play::Reply::{Done, Nothing, Pending, Value};
use crate::play::{Reply, answers};
use mea_once_core::{FlightCore, MapCore};
use mea_test_support::Collides;
use std::alloc::{AllocError, Global};
use std::hash::{BuildHasher, BuildHasherDefault, FoldHasher};
use std::process::Abort;

type Spread = BuildHasherDefault<FoldHasher>;

type Map<S> = MapCore<u64, u64, S, u64>;

type Group<S> = FlightCore<u64, u64, S, u64>;

// A removed entry stays for its callers.
const A_REMOVED_ENTRY_STAYS: &[(Step, Reply)] = &[
    (Step::Ask(5, Settles), Done),
    (Step::Ask(5, Settles), Done),
    (Step::Poll(0, 30), Pending),
    (Step::Poll(1, 31), Pending),
    (Step::Remove(5), Nothing),
    (Step::Settle(0, Ok(77)), Value(30)),
    (Step::Poll(0, 32), Value(77)),
    (Step::Wake, Value(31)),
    (Step::Poll(1, 33), Value(77)),
    (Step::Wake, Nothing),
    (Step::Get(5), Nothing),
];

#[test]
fn a_removed_entry_stays(rt: HostRuntime) {
    assert_eq!(rt; map_differs(rt.alloc(), A_REMOVED_ENTRY_STAYS), None);
}

// Calls of one key share a value; one that comes after the key was forgotten computes its own.
const A_FORGOTTEN_KEY_COMPUTES_ANEW: &[(Step, Reply)] = &[
    (Step::Ask(5, Settles), Done),
    (Step::Ask(5, Settles), Done),
    (Step::Poll(0, 30), Pending),
    (Step::Poll(1, 31), Pending),
    (Step::Forget(5), Done),
    (Step::Ask(5, Settles), Done),
    (Step::Poll(2, 32), Pending),
    (Step::Settle(0, Ok(70)), Value(30)),
    (Step::Poll(0, 33), Value(70)),
    (Step::Wake, Value(31)),
    (Step::Poll(1, 34), Value(70)),
    (Step::Settle(2, Ok(71)), Value(32)),
    (Step::Poll(2, 35), Value(71)),
    (Step::Wake, Nothing),
];

#[test]
fn a_forgotten_key_computes_anew(rt: HostRuntime) {
    assert_eq!(rt;
        group_differs(rt.alloc(), A_FORGOTTEN_KEY_COMPUTES_ANEW),
        None
    );
}

// A call by key that ends at any stage leaves the next in its place, and the last one no empty entry.
const CALLS_BY_KEY_END: &[(Step, Reply)] = &[
    (Step::Ask(5, Settles), Done),
    (Step::Ask(5, Settles), Done),
    (Step::Ask(6, Settles), Done),
    (Step::Poll(0, 30), Pending),
    (Step::Poll(1, 31), Pending),
    (Step::Poll(2, 32), Pending),
    (Step::End(0), Done),
    (Step::Wake, Value(31)),
    (Step::End(1), Done),
    (Step::Get(5), Nothing),
    (Step::Settle(2, Ok(8)), Value(32)),
    (Step::Poll(2, 33), Value(8)),
    (Step::Get(6), Value(8)),
    (Step::Wake, Nothing),
];

fn roomy_map_differs(rt: &(impl Abort + AllocGlobal), script: Script) -> Option<usize> {
    let map = MapCore::with_capacity_and_hasher(rt.alloc(), 2, Collides).expect(rt, "memory");
    differs(rt.alloc(), map, script)
}

#[test]
fn calls_by_key_end(rt: HostRuntime) {
    assert_eq!(rt; roomy_map_differs(&rt, CALLS_BY_KEY_END), None);
}

// Two calls of each of 64 keys of a map, of which the first computes; every other key is taken out, and what is left is
// looked up.
fn crowd_of_map(alloc: Global) -> Result<Vec<Step>, AllocError> {
    let mut script = Vec::new(alloc);
    for key in 0..64u64 {
        let (first, second) = (key as usize * 2, key as usize * 2 + 1);
        script.extend_from_slice(&[
            Step::Ask(key, Settles),
            Step::Ask(key, Settles),
            Step::Poll(first, 100),
            Step::Poll(second, 200),
            Step::Settle(first, Ok(key + 1000)),
            Step::Poll(first, 101),
            Step::Wake,
            Step::Poll(second, 201),
        ])?;
    }
    for key in 0..32u64 {
        script.push(Step::Remove(key * 2))?;
    }
    for key in 0..64u64 {
        script.push(Step::Get(key))?;
    }
    Ok(script)
}

// Two calls of each of 64 keys of a group, of which the first computes, beside calls of 64 others that never end.
fn crowd_of_group(alloc: Global) -> Result<Vec<Step>, AllocError> {
    let mut script = Vec::new(alloc);
    for key in 0..64u64 {
        let other = key as usize * 3;
        let (first, second) = (other + 1, other + 2);
        script.extend_from_slice(&[
            Step::Ask(key + 64, Settles),
            Step::Ask(key, Settles),
            Step::Ask(key, Settles),
            Step::Poll(other, 50),
            Step::Poll(first, 100),
            Step::Poll(second, 200),
            Step::Settle(first, Ok(key + 1000)),
            Step::Poll(first, 101),
            Step::Wake,
            Step::Poll(second, 201),
        ])?;
    }
    Ok(script)
}

fn told_of_a_map<S: BuildHasher + Drop>(alloc: Global, hasher: S, script: &[Step]) -> Vec<Reply> {
    let map: Map<S> = MapCore::with_hasher(alloc, hasher);
    answers(alloc, Room::new(alloc, map), script)
}

// Hashes that are all equal change no answer of a map.
#[test]
fn hashes_change_nothing(rt: HostRuntime) {
    let script = crowd_of_map(rt.alloc()).expect(&rt, "memory");
    let told = told_of_a_map(rt.alloc(), Collides, &script);
    assert_eq!(rt; told.len(), 608);
    assert!(rt; told.get(5).copied() == Some(Value(1000)));
    assert!(rt; told.get(6).copied() == Some(Value(200)));
    assert!(rt; told.last().copied() == Some(Value(1063)));
    assert!(rt; told == told_of_a_map(rt.alloc(), Spread::new(), &script));
}

fn told_of_a_group<S: BuildHasher + Drop>(alloc: Global, hasher: S, script: &[Step]) -> Vec<Reply> {
    let group: Group<S> = FlightCore::with_hasher(alloc, hasher);
    answers(alloc, Room::new(alloc, group), script)
}

// The same of a group.
#[test]
fn hashes_change_nothing_of_a_group(rt: HostRuntime) {
    let script = crowd_of_group(rt.alloc()).expect(&rt, "memory");
    let told = told_of_a_group(rt.alloc(), Collides, &script);
    assert_eq!(rt; told.len(), 640);
    assert!(rt; told.get(7).copied() == Some(Value(1000)));
    assert!(rt; told.get(8).copied() == Some(Value(200)));
    assert!(rt; told.last().copied() == Some(Value(1063)));
    assert!(rt; told == told_of_a_group(rt.alloc(), Spread::new(), &script));
}

// A map that is made from pairs has the last value of each key, and a call finds it.
const PAIRS_MAKE_A_MAP: &[(Step, Reply)] = &[
    (Step::Get(5), Value(51)),
    (Step::Get(6), Value(60)),
    (Step::Get(7), Nothing),
    (Step::Ask(5, Settles), Done),
    (Step::Settle(0, Ok(9)), Nothing),
    (Step::Poll(0, 10), Value(51)),
];

fn map_of_pairs_differs(rt: &(impl Abort + AllocGlobal), script: Script) -> Option<usize> {
    let pairs = vec![in rt.alloc(); (5, 50), (6, 60), (5, 51)].expect(rt, "memory");
    let map = MapCore::from_pairs(rt.alloc(), pairs, Collides).expect(rt, "memory");
    differs(rt.alloc(), map, script)
}

#[test]
fn pairs_make_a_map(rt: HostRuntime) {
    assert_eq!(rt; map_of_pairs_differs(&rt, PAIRS_MAKE_A_MAP), None);
}

// Whether a call that is polled once, with its value at hand, computes it.
fn is_computed<C: Computing>(map: &mut C, key: u64) -> bool {
    map.polled(&mut C::call(key, Scripted::AtOnce(key)), 1) == Value(key)
}

// Whether each of so many keys of a map is computed and taken again, and then one of them is gone.
fn are_taken<C: Computing>(mut map: C, keys: u64) -> bool {
    for key in 0..keys {
        if !is_computed(&mut map, key) {
            return false;
        }
    }
    for key in 0..keys {
        if map.reply(Step::Remove(key)) != Some(Value(key)) {
            return false;
        }
    }
    map.reply(Step::Get(7)) == Some(Nothing)
}

fn are_taken_of_a_map<S: BuildHasher + Drop>(alloc: Global, hasher: S, keys: u64) -> bool {
    let map: Map<S> = MapCore::with_hasher(alloc, hasher);
    are_taken(map, keys)
}

// Many keys are computed and taken again.
#[test]
fn many_keys(rt: HostRuntime) {
    assert!(rt; are_taken_of_a_map(rt.alloc(), Spread::new(), 20_000));
}
