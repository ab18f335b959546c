use crate::claims::{answer_of, gave, mine, queues, there, value_of};
use crate::counts::bell;
use crate::inits::{Fails, Gives};
use mea_base::Poll;
use mea_keep::once::OnceMap;
use mea_keep::{Claim, Claimed, Init, Never};
use mea_test_support::{Bell, Count, found, rung};
use mea_wait::{End, Waits};
use std::hash::{BuildHasher, BuildHasherDefault, FoldHasher};
use std::process::Abort;
use std::sync::Wait;

// A map of numbers by number. Nothing but its making asks which hasher it has.
type Map<S> = OnceMap<u64, u64, S, Bell>;

// What the map has under this key for who computes with this initialiser.
fn computed<R: Wait, S: BuildHasher + Drop, I: Init<u64, Never, Bell> + Drop>(
    rt: &R,
    map: &Map<S>,
    key: u64,
    init: I,
    bell: &Count,
) -> Option<u64>
    requires { (init : I) → I.may_poll init }
{
    value_of(rt, map.compute(key, init), bell)
}

// The error of an initialiser under a key.
fn failed<R: Wait, S: BuildHasher + Drop>(
    rt: &R,
    map: &Map<S>,
    key: u64,
    bell: &Count,
) -> Option<Result<u64, u8>> {
    answer_of(rt, map.try_compute(key, Fails), bell)
}

fn get<R: Wait, S: BuildHasher + Drop>(rt: &R, map: &Map<S>, key: u64) -> Option<u64> {
    found(map.get(rt, &key))
}

fn remove<R: Wait, S: BuildHasher + Drop>(rt: &R, map: &Map<S>, key: u64) -> Option<u64> {
    found(map.remove(rt, &key))
}

// A map that is made with room has no entry. A key's value is computed by who has the turn; another key is not kept waiting. An
// initialiser that computes another key of its own map gets an answer.
#[test]
fn a_key_is_computed_once(rt: HostRuntime) {
    let one = bell(&rt);
    let two = bell(&rt);
    let map = OnceMap::with_capacity(rt.alloc(), 16).expect(&rt, "memory");
    assert!(rt; get(&rt, &map, 5).is_none());
    computes(&rt, &map, &one, &two);
}

fn computes<R: Wait + Abort, S: BuildHasher + Drop>(
    rt: &R,
    map: &Map<S>,
    one: &Count,
    two: &Count,
) {
    is_computed_once(rt, map, (map.claim(5), map.claim(5)), one, two);
    is_kept(rt, map);
    assert!(rt; computed(rt, map, 2, Asks { rt, map, bell: one }, one) == Some(8));
    assert!(rt; get(rt, map, 1) == Some(7));
    assert!(rt; failed(rt, map, 3, one) == Some(Err(4)));
}

fn is_computed_once<
    R: Wait + Abort,
    S: BuildHasher + Drop,
    F: Waits<Bell, Claimed<u64, C>>,
    C: Claim<u64, u64, G>,
    G: End,
>(rt: &R, map: &Map<S>, callers: (F, F), one: &Count, two: &Count)
    requires first { F.can_poll callers.0 }
    requires second { F.can_poll callers.1 }
{
    let (first, second) = callers;
    let claim = mine(rt, Some(first), one);
    let second = queues(rt, second, two);
    assert!(rt; computed(rt, map, 6, Gives(60), one) == Some(60));
    assert!(rt; gave(rt, claim, 50) == Some(50));
    assert!(rt; rung(two) == 1);
    assert!(rt; there(rt, second, two) == Some(50));
}

fn is_kept<R: Wait + Abort, S: BuildHasher + Drop>(rt: &R, map: &Map<S>) {
    assert!(rt; get(rt, map, 5) == Some(50));
    assert!(rt; get(rt, map, 7).is_none());
    assert!(rt; remove(rt, map, 5) == Some(50));
    assert!(rt; remove(rt, map, 5).is_none());
    map.discard(rt, &6);
    assert!(rt; get(rt, map, 6).is_none());
}

// An initialiser that computes key 1 of the map that it computes for, and gives one more.
#[derive(Drop)]
struct Asks<'a, R: Wait, S: BuildHasher> {
    rt: &'a R,
    map: &'a Map<S>,
    bell: &'a Count,
}

impl<'a, R: Wait, S: BuildHasher + Drop> Init<u64, Never, Bell> for Asks<'a, R, S> {
    ghost use Rattle.std.specs.Prelude.{⊤};

    ghost answers = { λ before waker answer after. ⊤ };

    fn poll(&mut self, _waker: Bell) -> Poll<Result<u64, Never>> {
        match computed(self.rt, self.map, 1, Gives(7), self.bell) {
            Some(value) => Poll::Ready(Ok(value.wrapping_add(1))),
            None => Poll::Ready(Ok(0)),
        }
    }
}

// A map is made of pairs: the last of a key stands, and a key that none has is computed.
#[test]
fn a_map_is_made_of_pairs(rt: HostRuntime) {
    let bell = bell(&rt);
    let pairs = vec![in rt.alloc(); (5u64, 50u64), (6, 60), (5, 51)].expect(&rt, "memory");
    let hasher: BuildHasherDefault<FoldHasher> = BuildHasherDefault::new();
    let map = OnceMap::from_pairs(rt.alloc(), pairs, hasher).expect(&rt, "memory");
    has_the_last(&rt, &map, &bell);
}

fn has_the_last<R: Wait + Abort, S: BuildHasher + Drop>(rt: &R, map: &Map<S>, bell: &Count) {
    assert!(rt; get(rt, map, 5) == Some(51));
    assert!(rt; get(rt, map, 6) == Some(60));
    assert!(rt; get(rt, map, 7).is_none());
    assert!(rt; computed(rt, map, 6, Gives(1), bell) == Some(60));
    assert!(rt; computed(rt, map, 7, Gives(70), bell) == Some(70));
}
