use crate::guards::{bell, sets, share, shows};
use mea_sync::rwlock::{RwLock, RwLockReadGuard, RwLockWriteGuard};
use mea_test_support::{Bell, Count, end, found, gives, pends, rung};
use mea_wait::{End, Waits};
use std::num::NonZeroUsize;
use std::ops::DerefMut;
use std::process::Abort;
use std::sync::{Arc, Wait};

// Several read at a time, and one writes once they have all ended. A write that gives up lets the reads behind it in, and a read
// that gives up once it was let in the write behind it.
#[test]
fn readers_share_and_a_writer_is_alone(rt: HostRuntime) {
    let one = bell(&rt);
    let two = bell(&rt);
    let three = bell(&rt);
    let four = bell(&rt);
    let lock = RwLock::new(rt.alloc(), 4);
    are_let_in(&rt, &lock, &one, &two);
    assert!(rt; shows(&rt, found(lock.try_read(&rt))) == Some(9));
    let_the_next_in(&rt, &lock, &three, &four);
    assert!(rt; lock.into_inner() == Some(5));
}

fn are_let_in<R: Wait + Abort>(rt: &R, lock: &RwLock<u64, Bell>, one: &Count, two: &Count) {
    let first = found(lock.try_read(rt));
    let second = gives(rt, Some(lock.read()), one);
    assert!(rt; !end(rt, lock.try_write(rt)));
    let (write, third) = once_they_ended(
        rt,
        (first, second),
        lock.write(),
        lock.read(),
        (one, two),
    );
    // The write becomes a read, and the read behind it is let in.
    let read = becomes_read(rt, write, 9);
    assert!(rt; rung(two) == 1);
    assert!(rt; shows(rt, read) == Some(9));
    assert!(rt; end(rt, third));
}

// A write that waits for two reads, and the read that waits behind it.
fn once_they_ended<R: Wait + Abort, G: End, F: Waits<Bell, G>, V: End, W: Waits<Bell, V>>(
    rt: &R,
    reads: (Option<G>, Option<G>),
    write: W,
    third: F,
    bells: (&Count, &Count),
) -> (Option<V>, Option<F>)
    requires write { W.can_poll write }
    requires third { F.can_poll third }
{
    let (one, two) = bells;
    let (first, second) = reads;
    let write = pends(rt, write, one);
    let third = pends(rt, third, two);
    assert!(rt; end(rt, first));
    assert!(rt; rung(one) == 0);
    assert!(rt; end(rt, second));
    assert!(rt; (rung(one), rung(two)) == (1, 0));
    (gives(rt, write, one), third)
}

// Writes, and goes on as a read.
fn becomes_read<'a, R: Wait>(
    rt: &R,
    guard: Option<RwLockWriteGuard<'a, u64, Bell>>,
    value: u64,
) -> Option<RwLockReadGuard<'a, u64, Bell>> {
    let mut guard = guard?;
    *guard = value;
    match guard.downgrade(rt) {
        Ok(read) => Some(read),
        Err((guard, _)) => {
            guard.end(rt);
            None
        }
    }
}

// As many readers as were asked for, and the forms that own a share of the lock.
#[test]
fn owned_guards_and_a_most(rt: HostRuntime) {
    let bell = bell(&rt);
    let lock = RwLock::with_max_readers(rt.alloc(), 2, NonZeroUsize::MIN);
    let lock = Arc::new(rt.alloc(), lock).expect(&rt, "memory");
    are_owned(&rt, &lock, &bell);
}

fn are_owned<R: Wait + Abort>(rt: &R, lock: &Arc<RwLock<u64, Bell>>, bell: &Count) {
    let read = found(share(rt, lock).try_read_owned(rt));
    assert!(rt; !end(rt, found(lock.try_read(rt))));
    assert!(rt; end(rt, read));
    assert!(rt; end(rt, gives(rt, Some(share(rt, lock).write_owned()), bell)));
    assert!(rt; end(rt, gives(rt, Some(share(rt, lock).read_owned()), bell)));
    assert!(rt; end(rt, share(rt, lock).try_write_owned(rt)));
}

fn let_the_next_in<R: Wait + Abort>(rt: &R, lock: &RwLock<u64, Bell>, one: &Count, two: &Count) {
    let held = found(lock.try_read(rt));
    a_write_gives_up(rt, held, lock.write(), lock.read(), (one, two));
    let held = lock.try_write(rt);
    a_read_gives_up(rt, held, lock.read(), lock.write(), (one, two));
}

fn a_write_gives_up<R: Wait + Abort, G: End, F: Waits<Bell, G>, V: End, W: Waits<Bell, V>>(
    rt: &R,
    held: Option<G>,
    write: W,
    read: F,
    bells: (&Count, &Count),
)
    requires write { W.can_poll write }
    requires read { F.can_poll read }
{
    let (one, two) = bells;
    let write = pends(rt, write, one);
    let read = pends(rt, read, two);
    assert!(rt; end(rt, write));
    assert!(rt; (rung(one), rung(two)) == (0, 1));
    assert!(rt; end(rt, gives(rt, read, two)));
    assert!(rt; end(rt, held));
}

fn a_read_gives_up<
    R: Wait + Abort,
    G: End,
    F: Waits<Bell, G>,
    V: End + DerefMut<Target = u64>,
    W: Waits<Bell, V>,
>(rt: &R, held: Option<V>, read: F, write: W, bells: (&Count, &Count))
    requires read { F.can_poll read }
    requires write { W.can_poll write }
{
    let (one, two) = bells;
    let read = pends(rt, read, two);
    let write = pends(rt, write, one);
    assert!(rt; end(rt, held));
    assert!(rt; (rung(one), rung(two)) == (0, 2));
    assert!(rt; end(rt, read));
    assert!(rt; (rung(one), rung(two)) == (1, 2));
    assert!(rt; sets(rt, gives(rt, write, one), 5));
}
