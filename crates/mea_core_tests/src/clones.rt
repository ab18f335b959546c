ghost use Rattle.std.specs.Prelude.{◌≡◌, Result};

use crate::play::Reply;
use crate::play::Reply::{Back, Done, Error, No, Nothing, Pending, Yes};
use mea_base::{NoMemory, Poll};
use mea_once_core::{FlightCore, Init, KeyCall, MapCore};
use mea_test_support::Collides;
use std::alloc::{AllocError, Global};
use std::cell::Cell;

// A value whose clone is refused while a cell says so.
#[derive(Drop)]
struct Refusing<'a> {
    refuses: &'a Cell<bool>,
}

impl<'a> Clone for Refusing<'a> {
    ghost is_clone = { λ x y. y ≡ x };

    fn clone(&self) -> Result<Self, AllocError> {
        if self.refuses.get() {
            return Err(AllocError);
        }
        Ok(Refusing {
            refuses: self.refuses,
        })
    }
}

// An initialiser that has its value.
#[derive(Drop)]
struct Holding<'a> {
    refuses: &'a Cell<bool>,
}

impl<'a> Init<Refusing<'a>, u64, u64> for Holding<'a> {
    ghost answers = { λ _ _ _ _. Unit {0} };

    fn poll(&mut self, _waker: u64) -> Poll<Result<Refusing<'a>, u64>> {
        Poll::Ready(Ok(Refusing {
            refuses: self.refuses,
        }))
    }
}

type Call<'a> = KeyCall<u64, Holding<'a>>;

// What a poll of a computation comes to.
type Polled<'a> = Result<Poll<Result<Refusing<'a>, u64>>, (Option<u64>, NoMemory)>;

// What a poll tells: that it is ready, or, where the clone is refused, whether its waker comes back.
fn reply(polled: &Polled<'_>) -> Reply {
    match polled {
        Ok(Poll::Ready(Ok(_))) => Done,
        Ok(Poll::Ready(Err(e))) => Error(*e),
        Ok(Poll::Pending) => Pending,
        Err((Some(waker), _)) => Back(*waker),
        Err((None, _)) => Nothing,
    }
}

type Map<'a> = MapCore<u64, Refusing<'a>, Collides, u64>;

fn computed<'a>(map: &mut Map<'a>, call: &mut Call<'a>, waker: u64) -> Reply {
    reply(&map.poll_compute_checked(call, waker))
}

// What a look at a value tells: whether it is there, if its clone is not refused.
fn found(there: &Result<Option<Refusing<'_>>, NoMemory>) -> Reply {
    match there {
        Ok(Some(_)) => Yes,
        Ok(None) => No,
        Err(_) => Reply::NoMemory,
    }
}

// What two calls of a map tell under one key, first while clones are refused and then while they are not.
fn told_by_a_map<'a>(
    map: &mut Map<'a>,
    first: &mut Call<'a>,
    second: &mut Call<'a>,
    refuses: &Cell<bool>,
) -> [Reply; 8] {
    let new = computed(map, first, 1);
    let again = computed(map, first, 2);
    let other = computed(map, second, 3);
    let kept = found(&map.get(&5));
    let removed = found(&map.remove(&5));
    refuses.set(false);
    let served = computed(map, first, 4);
    let served_too = computed(map, second, 5);
    let still_kept = found(&map.get(&5));
    [
        new, again, other, kept, removed, served, served_too, still_kept,
    ]
}

fn refused_in_a_map(alloc: Global) -> [Reply; 8] {
    let refuses = Cell::new(true);
    let mut map = MapCore::with_hasher(alloc, Collides);
    let mut first = KeyCall::new(5, Holding { refuses: &refuses });
    let mut second = KeyCall::new(5, Holding { refuses: &refuses });
    told_by_a_map(&mut map, &mut first, &mut second, &refuses)
}

// Where the clone of a value that was just computed is refused, the waker is gone and the value is kept for the
// next poll; where that of an earlier one is, the waker comes back.
#[test]
fn a_clone_is_refused(rt: HostRuntime) {
    let told = [
        Nothing,
        Back(2),
        Back(3),
        Reply::NoMemory,
        Reply::NoMemory,
        Done,
        Done,
        Yes,
    ];
    assert!(rt; refused_in_a_map(rt.alloc()) == told);
}

type Group<'a> = FlightCore<u64, Refusing<'a>, Collides, u64>;

fn worked<'a>(group: &mut Group<'a>, call: &mut Call<'a>, waker: u64) -> Reply {
    reply(&group.poll_work_checked(call, waker))
}

fn refused_in_a_group(alloc: Global) -> [Reply; 2] {
    let refuses = Cell::new(true);
    let mut group = FlightCore::with_hasher(alloc, Collides);
    let mut first = KeyCall::new(5, Holding { refuses: &refuses });
    let refused = worked(&mut group, &mut first, 1);
    refuses.set(false);
    [refused, worked(&mut group, &mut first, 2)]
}

// The same in a group, whose entry has left with the value.
#[test]
fn a_shared_clone_is_refused(rt: HostRuntime) {
    assert!(rt; refused_in_a_group(rt.alloc()) == [Nothing, Done]);
}
