ghost use Rattle.std.specs.Prelude.{IfSome};

use crate::guards::{bell, granted, hears, share, swaps, waits};
use crate::pool::leases::pool;
use mea_shared_pool::{Closed, Pool};
use mea_test_support::{Bell, Count, end, gives, goes_on, rung};
use mea_wait::{End, Waits};
use std::ops::DerefMut;
use std::process::Abort;
use std::sync::{Arc, Wait};

// Who waits gets the resource that comes back, with its value, and in the order of the first polls. A pool that is not drained
// keeps its resources.
#[test]
fn leases_go_in_the_order_of_first_polls(rt: HostRuntime) {
    let one = bell(&rt);
    let two = bell(&rt);
    let pool = undrained(&rt, pool(&rt, 2));
    go_in_order(&rt, &pool, &one, &two);
    leaves(&rt, pool, &[31, 22]);
}

// A pool that is not drained does not give its resources out.
fn undrained(rt: &impl Abort, pool: Pool<u64, Bell>) -> Pool<u64, Bell> {
    match pool.into_resources() {
        Ok(_) => panic!(rt; "a pool that is not drained"),
        Err(pool) => pool,
    }
}

// Drains a pool, whose resources are these then.
fn leaves<R: Wait + Abort>(rt: &R, pool: Pool<u64, Bell>, resources: &[u64]) {
    pool.drain(rt);
    match pool.into_resources() {
        Ok(left) => assert!(rt; left.as_slice() == resources),
        Err(_) => panic!(rt; "a pool that is drained"),
    }
}

fn go_in_order<R: Wait + Abort>(rt: &R, pool: &Pool<u64, Bell>, one: &Count, two: &Count) {
    let ten = pool.try_get(rt);
    let eleven = granted(rt, Some(pool.get()), one);
    assert!(rt; pool.idle(rt) == 0);
    assert!(rt; !end(rt, pool.try_get(rt)));
    come_back(
        rt,
        pool,
        (ten, eleven),
        (pool.get(), pool.get()),
        (one, two),
    );
    assert!(rt; swaps(rt, pool.try_get(rt), 22) == Some(21));
    assert!(rt; (rung(one), rung(two), pool.idle(rt)) == (1, 1, 2));
}

// Two wait while two leases are out, which come back one after the other.
fn come_back<R: Wait + Abort, L: End + DerefMut<Target = u64>, F: Waits<Bell, Result<L, Closed>>>(
    rt: &R,
    pool: &Pool<u64, Bell>,
    leases: (Option<L>, Option<L>),
    callers: (F, F),
    bells: (&Count, &Count),
)
    requires first { F.can_poll callers.0 }
    requires second { F.can_poll callers.1 }
{
    let (one, two) = bells;
    let (ten, eleven) = leases;
    let (first, second) = callers;
    let first = waits(rt, first, one);
    let second = waits(rt, second, two);
    assert!(rt; swaps(rt, ten, 20) == Some(10));
    assert!(rt; (rung(one), rung(two), pool.idle(rt)) == (1, 0, 1));
    assert!(rt; !end(rt, pool.try_get(rt)));
    assert!(rt; swaps(rt, granted(rt, first, one), 30) == Some(20));
    assert!(rt; (rung(one), rung(two)) == (1, 1));
    assert!(rt; swaps(rt, eleven, 21) == Some(11));
    assert!(rt; swaps(rt, granted(rt, second, two), 31) == Some(30));
}

// A wait that is given up leaves the line, and hands on what it was granted. A drain refuses who waits and who comes; one that
// was granted gets its lease, and the last to come back ends the drain.
#[test]
fn waits_are_given_up_and_the_pool_drains(rt: HostRuntime) {
    let one = bell(&rt);
    let two = bell(&rt);
    let three = bell(&rt);
    let four = bell(&rt);
    let pool = pool(&rt, 1);
    hands_on(&rt, &pool, &one, &two);
    drains(&rt, &pool, &three, &four);
    leaves(&rt, pool, &[50]);
}

fn hands_on<R: Wait + Abort>(rt: &R, pool: &Pool<u64, Bell>, one: &Count, two: &Count) {
    let held = pool.try_get(rt);
    assert!(rt; end(rt, Some(pool.get())));
    give_up(rt, held, (pool.get(), pool.get(), pool.get()), (one, two));
    assert!(rt; pool.idle(rt) == 1);
}

// Of three who wait the second gives up while it waits, and the first once it was granted.
fn give_up<R: Wait + Abort, L: End + DerefMut<Target = u64>, F: Waits<Bell, Result<L, Closed>>>(
    rt: &R,
    held: Option<L>,
    callers: (F, F, F),
    bells: (&Count, &Count),
)
    requires first { F.can_poll callers.0 }
    requires second { F.can_poll callers.1 }
    requires third { F.can_poll callers.2 }
{
    let (one, two) = bells;
    let (first, second, third) = callers;
    let first = waits(rt, first, one);
    let second = waits(rt, second, one);
    let third = waits(rt, third, two);
    assert!(rt; end(rt, second));
    assert!(rt; swaps(rt, held, 20) == Some(10));
    assert!(rt; (rung(one), rung(two)) == (1, 0));
    assert!(rt; end(rt, first));
    assert!(rt; (rung(one), rung(two)) == (1, 1));
    assert!(rt; swaps(rt, granted(rt, third, two), 30) == Some(20));
}

fn drains<R: Wait + Abort>(rt: &R, pool: &Pool<u64, Bell>, one: &Count, two: &Count) {
    let held = pool.try_get(rt);
    let callers = (pool.get(), pool.get());
    wait_for_the_end(
        rt,
        pool,
        held,
        callers,
        (pool.drained(), pool.drained()),
        (one, two),
    );
    pool.drain(rt);
    assert!(rt; gives(rt, Some(pool.drained()), two) == Some(()));
    assert!(rt; (rung(one), rung(two)) == (2, 1));
}

// Two wait for a lease, of whom the first is granted one, and two for the end. Then the pool is drained.
fn wait_for_the_end<
    R: Wait + Abort,
    L: End + DerefMut<Target = u64>,
    F: Waits<Bell, Result<L, Closed>>,
    D: Waits<Bell, ()>,
>(
    rt: &R,
    pool: &Pool<u64, Bell>,
    held: Option<L>,
    callers: (F, F),
    ends: (D, D),
    bells: (&Count, &Count),
)
    requires first { F.can_poll callers.0 }
    requires second { F.can_poll callers.1 }
    requires ended { D.can_poll ends.0 }
    requires drained { D.can_poll ends.1 }
{
    let (one, two) = bells;
    let first = waits(rt, callers.0, one);
    let second = waits(rt, callers.1, one);
    let ended = goes_on(rt, ends.0, two);
    let drained = goes_on(rt, ends.1, two);
    assert!(rt; swaps(rt, held, 40) == Some(30));
    assert!(rt; (rung(one), rung(two), pool.is_draining(rt)) == (1, 0, false));
    pool.drain(rt);
    assert!(rt; (rung(one), rung(two), pool.is_draining(rt)) == (2, 0, true));
    are_told(rt, pool, (first, second), (ended, drained), bells);
}

// Who was granted a lease has it, and its end is that of the drain. The other is refused, and so is who comes later.
fn are_told<
    R: Wait + Abort,
    L: End + DerefMut<Target = u64>,
    F: Waits<Bell, Result<L, Closed>>,
    D: Waits<Bell, ()>,
>(
    rt: &R,
    pool: &Pool<u64, Bell>,
    callers: (Option<F>, Option<F>),
    ends: (Option<D>, Option<D>),
    bells: (&Count, &Count),
)
    requires first { IfSome callers.0 F.can_poll }
    requires second { IfSome callers.1 F.can_poll }
    requires drained { IfSome ends.1 D.can_poll }
{
    let (one, two) = bells;
    let (first, second) = callers;
    let (ended, drained) = ends;
    assert!(rt; hears(rt, second, one) && hears(rt, Some(pool.get()), one));
    assert!(rt; !end(rt, pool.try_get(rt)) && !pool.is_drained(rt));
    assert!(rt; end(rt, ended));
    assert!(rt; swaps(rt, granted(rt, first, one), 50) == Some(40));
    assert!(rt; (rung(one), rung(two), pool.is_drained(rt)) == (2, 1, true));
    assert!(rt; gives(rt, drained, two) == Some(()));
}

// The forms that own a share of the pool.
#[test]
fn owned_forms(rt: HostRuntime) {
    let bell = bell(&rt);
    let pool = Arc::new(rt.alloc(), pool(&rt, 2)).expect(&rt, "memory");
    owns(&rt, &pool, &bell);
}

fn owns<R: Wait + Abort>(rt: &R, pool: &Arc<Pool<u64, Bell>>, bell: &Count) {
    let ten = share(rt, pool).try_get_owned(rt).expect(rt, "a lease");
    let eleven = granted(rt, Some(share(rt, pool).get_owned()), bell).expect(rt, "a lease");
    assert!(rt; (ten.slot(), eleven.slot()) == (0, 1));
    let (caller, drained) = (share(rt, pool).get_owned(), share(rt, pool).drained_owned());
    go_back(rt, &**pool, (ten, eleven), caller, drained, bell);
}

// Two leases come back, of which the first is granted to who has given up, and the second is the last of the drain.
fn go_back<
    R: Wait + Abort,
    L: End + DerefMut<Target = u64>,
    F: Waits<Bell, Result<L, Closed>>,
    D: Waits<Bell, ()>,
>(rt: &R, pool: &Pool<u64, Bell>, leases: (L, L), caller: F, drained: D, bell: &Count)
    requires caller { F.can_poll caller }
    requires drained { D.can_poll drained }
{
    let (ten, eleven) = leases;
    let first = waits(rt, caller, bell);
    let drained = goes_on(rt, drained, bell);
    assert!(rt; swaps(rt, Some(ten), 20) == Some(10));
    assert!(rt; rung(bell) == 1);
    assert!(rt; end(rt, first));
    pool.drain(rt);
    assert!(rt; rung(bell) == 1);
    assert!(rt; swaps(rt, Some(eleven), 21) == Some(11));
    assert!(rt; rung(bell) == 2);
    assert!(rt; gives(rt, drained, bell) == Some(()));
}

// A pool of no resources is drained at once.
#[test]
fn a_pool_of_none_is_drained_at_once(rt: HostRuntime) {
    let bell = bell(&rt);
    let pool = pool(&rt, 0);
    has_none(&rt, &pool, &bell);
}

fn has_none<R: Wait + Abort>(rt: &R, pool: &Pool<u64, Bell>, bell: &Count) {
    let first = waits(rt, pool.get(), bell);
    assert!(rt; !pool.is_drained(rt));
    pool.drain(rt);
    assert!(rt; pool.is_drained(rt) && rung(bell) == 1);
    assert!(rt; hears(rt, first, bell));
}
