//! The steps of a pool's core that are made under its lock. Each tells how many wakers it made ready, so that as many are woken
//! once the lock is free. A wait or a lease is always of the pool that made it; where it were not, a wait that is polled begins
//! anew, and an end changes nothing.
ghost use Rattle.std.specs.Prelude.{◌≡◌, ◌-◌, length, true, false};
ghost use Rattle.mea_pool_core.specs.Shelf.{is_lent};
ghost use Rattle.mea_pool_core.specs.Pool.{with_lease, drained};
ghost use Rattle.mea_pool_core.specs.Calls.{Belongs, MayPoll, PollsLease, CancelsLease, MayPollDrain, MayEndDrain, PollsDrain, EndsDrain};

use mea_base::{NoMemory, Poll};
use mea_pool_core::{DrainWait, Lease, LeasePoll, LeaseWait, PoolCore};

// Polls a wait for a lease.
pub(crate) fn poll<T: Drop, W: Drop>(
    core: &mut PoolCore<T, W>,
    wait: &mut LeaseWait,
    waker: W,
) -> Result<LeasePoll<T>, (W, NoMemory)>
    ensures allowed { MayPoll core.old wait.old → PollsLease core.old wait.old waker result core.new wait.new }
    ensures renewed { ¬ MayPoll core.old wait.old → PollsLease core.old LeaseWait.New waker result core.new wait.new }
{
    if core.poll_lease_allowed(wait) {
        return core.poll_lease(wait, waker);
    }
    *wait = LeaseWait::New;
    core.poll_lease(wait, waker)
}

// Ends a wait for a lease.
pub(crate) fn cancel<T: Drop, W: Drop>(core: &mut PoolCore<T, W>, wait: LeaseWait) -> usize
    ensures allowed { Belongs core.old wait → CancelsLease core.old wait core.new }
    ensures refused { ¬ Belongs core.old wait → core.new ≡ core.old }
    ensures made { result ≡ length core.new.wakes - length core.old.wakes }
{
    let before = core.wakes_ready();
    if core.cancel_lease_allowed(&wait) {
        core.cancel_lease(wait);
    }
    core.wakes_ready().saturating_sub(before)
}

// Puts a lease back.
pub(crate) fn put_back<T: Drop, W: Drop>(core: &mut PoolCore<T, W>, lease: Lease<T>) -> usize
    ensures allowed { is_lent core.old.lent lease.0 ≡ true → core.new ≡ with_lease core.old lease }
    ensures refused { is_lent core.old.lent lease.0 ≡ false → core.new ≡ core.old }
    ensures made { result ≡ length core.new.wakes - length core.old.wakes }
{
    let before = core.wakes_ready();
    if core.put_back_allowed(&lease) {
        core.put_back(lease);
    }
    core.wakes_ready().saturating_sub(before)
}

// Drains the pool.
pub(crate) fn drain<T: Drop, W: Drop>(core: &mut PoolCore<T, W>) -> usize
    ensures drains { core.new ≡ drained core.old }
    ensures made { result ≡ length core.new.wakes - length core.old.wakes }
{
    let before = core.wakes_ready();
    core.drain();
    core.wakes_ready().saturating_sub(before)
}

// Polls a wait for the end of the drain.
pub(crate) fn poll_drained<T: Drop, W: Drop>(
    core: &mut PoolCore<T, W>,
    wait: &mut DrainWait,
    waker: W,
) -> Result<Poll<()>, (W, NoMemory)>
    ensures allowed { MayPollDrain core.old wait.old → PollsDrain core.old wait.old waker result core.new wait.new }
    ensures renewed { ¬ MayPollDrain core.old wait.old → PollsDrain core.old DrainWait.New waker result core.new wait.new }
{
    if !core.poll_drained_allowed(wait) {
        *wait = DrainWait::new();
    }
    core.poll_drained(wait, waker)
}

// Ends a wait for the end of the drain.
pub(crate) fn end_drain<T: Drop, W: Drop>(core: &mut PoolCore<T, W>, wait: DrainWait)
    ensures allowed { MayEndDrain core.old wait → EndsDrain core.old wait core.new }
    ensures refused { ¬ MayEndDrain core.old wait → core.new ≡ core.old }
{
    if core.end_drain_allowed(&wait) {
        core.end_drain(wait);
    }
}
