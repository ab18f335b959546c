ghost use Rattle.std.specs.Prelude.{Some, None, refl};

use crate::guards::{shows, swaps};
use mea_lock_core::Part;
use mea_sync::Shows;
use mea_sync::mutex::Mutex;
use mea_sync::rwlock::{Mapped, MappedRwLockReadGuard, MappedRwLockWriteGuard, RwLock};
use mea_test_support::{Bell, end, found};
use mea_wait::End;
use std::process::Abort;
use std::sync::Wait;

type Pair = (u64, u64);

// The first of a pair.
#[derive(Clone, Copy, Drop)]
struct First;

impl Part<Pair> for First {
    ghost use Rattle.mea_sync_tests.specs.First.{same_value};

    type Out = u64;

    ghost get = { λ p x. Some x.0 };

    ghost put = { λ p x y. (y, x.1) };

    fn part<'a>(&self, whole: &'a Pair) -> Option<&'a u64>
    where
        Self: 'a,
    {
        Some(&whole.0)
    }

    fn part_mut<'a>(whole: &'a mut Pair, _part: &Self) -> Option<&'a mut u64>
    where
        Self: 'a,
    {
        Some(&mut whole.0)
    }

    ghost stays = { λ p x y h. refl };

    ghost rests = { λ p x y h. λ i. (same_value x.0 y h i, x.1) };
}

// A guard, if there is one, that shows the first.
fn first_of<G: Shows<Pair>>(guard: Option<G>) -> Option<Mapped<Pair, G, First>> {
    Some(Mapped::map(guard?, First))
}

// A mapped guard of a mutex writes a part, and the rest stays.
#[test]
fn a_part_of_a_mutex(rt: HostRuntime) {
    let mutex = Mutex::new(rt.alloc(), (1, 2));
    part_of_a_mutex(&rt, &mutex);
    assert!(rt; mutex.into_inner() == Some((5, 2)));
}

fn part_of_a_mutex<R: Wait + Abort>(rt: &R, mutex: &Mutex<Pair, Bell>) {
    let first = first_of(mutex.try_lock(rt));
    assert!(rt; !end(rt, mutex.try_lock(rt)));
    assert!(rt; swaps(rt, first, 5) == Some(1));
}

// Whether the lock lets a read in.
fn is_read<R: Wait>(rt: &R, lock: &RwLock<Pair, Bell>) -> bool {
    end(rt, found(lock.try_read(rt)))
}

// Mapped guards of a write and of a read. A mapped write becomes a read of the same part, and no other write is let in.
#[test]
fn a_part_of_a_lock(rt: HostRuntime) {
    let mut lock = RwLock::new(rt.alloc(), (1, 2));
    part_of_a_lock(&rt, &lock);
    // Who has the whole lock writes by `get_mut`, also after reads have shared the value.
    match lock.get_mut() {
        Some(value) => value.1 = 3,
        None => assert!(rt; false),
    }
    assert!(rt; lock.into_inner() == Some((5, 3)));
}

fn part_of_a_lock<R: Wait + Abort>(rt: &R, lock: &RwLock<Pair, Bell>) {
    let first = first_of(lock.try_write(rt));
    assert!(rt; !is_read(rt, lock));
    let read = becomes_read(rt, first, 1, 5);
    assert!(rt; is_read(rt, lock));
    assert!(rt; !end(rt, lock.try_write(rt)));
    assert!(rt; shows(rt, read) == Some(5));
    let first = first_of(found(lock.try_read(rt)));
    assert!(rt; is_read(rt, lock));
    assert!(rt; shows(rt, first) == Some(5));
}

// Writes over what is shown, and goes on as a read.
fn becomes_read<'a, R: Wait>(
    rt: &R,
    first: Option<MappedRwLockWriteGuard<'a, Pair, First, Bell>>,
    before: u64,
    value: u64,
) -> Option<MappedRwLockReadGuard<'a, Pair, First, Bell>> {
    let mut first = first?;
    if *first != before {
        first.end(rt);
        return None;
    }
    *first = value;
    match first.downgrade(rt) {
        Ok(read) => Some(read),
        Err((write, _)) => {
            write.end(rt);
            None
        }
    }
}
