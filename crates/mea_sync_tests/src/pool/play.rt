use mea_base::Poll;
use mea_pool_core::{DrainWait, Lease, LeasePoll, LeaseWait, PoolCore};
use mea_test_support::Plays;
use std::alloc::Global;
use std::mem;

type Pool = PoolCore<u64, u64>;

type Asks = Vec<Option<LeaseWait>>;

type Leases = Vec<Option<Lease<u64>>>;

type Waits = Vec<Option<DrainWait>>;

// A call of a pool of numbers. Waits and leases are known by their places in the lists of the player.
#[derive(Clone, Copy)]
pub(crate) enum Call {
    Ask,
    Poll(usize, u64),
    End(usize),
    Use(usize, u64),
    Back(usize),
    Drain,
    Wait,
    PollWait(usize, u64),
    EndWait(usize),
    Idle,
    IsDraining,
    IsDrained,
    // Takes the two resources of the pool, which is drained, and leaves an empty pool.
    Resources,
}

// What a call told.
#[derive(Clone, Copy, PartialEq, Eq)]
pub(crate) enum Reply {
    Made,
    Leased(usize, u64),
    Pending,
    Gone,
    Ready,
    Count(usize),
    Done,
    Yes,
    No,
    Two(u64, u64),
    // What is named is not there, or not of this pool.
    Unknown,
}

// A pool and what was made of it.
#[derive(Drop)]
pub(crate) struct Room {
    alloc: Global,
    pool: Pool,
    asks: Asks,
    leases: Leases,
    waits: Waits,
}

impl Room {
    pub(crate) fn new(alloc: Global, size: usize) -> Option<Room> {
        Some(Room {
            alloc,
            pool: pool_of(alloc, size)?,
            asks: Vec::new(alloc),
            leases: Vec::new(alloc),
            waits: Vec::new(alloc),
        })
    }
}

// A pool of the numbers below so many.
fn pool_of(alloc: Global, size: usize) -> Option<Pool> {
    let mut resources = Vec::new(alloc);
    for i in 0..size {
        resources.push(i as u64).ok()?;
    }
    PoolCore::new(alloc, resources).ok()
}

impl Plays for Room {
    type Call = Call;

    // Beside it the waker that is called then.
    type Reply = (Reply, Option<u64>);

    fn reply(&mut self, call: Call) -> Option<(Reply, Option<u64>)> {
        let told = match call {
            Call::Ask => made(&mut self.asks, LeaseWait::new()),
            Call::Wait => made(&mut self.waits, DrainWait::new()),
            Call::Poll(place, waker) => {
                polled(
                    &mut self.pool,
                    &mut self.asks,
                    &mut self.leases,
                    place,
                    waker,
                )
            }
            Call::PollWait(place, waker) => {
                wait_polled(&mut self.pool, &mut self.waits, place, waker)
            }
            Call::End(place) => ended(&mut self.pool, taken(&mut self.asks, place)),
            Call::EndWait(place) => wait_ended(&mut self.pool, taken(&mut self.waits, place)),
            Call::Use(place, value) => used(&mut self.leases, place, value),
            Call::Back(place) => put_back(&mut self.pool, taken(&mut self.leases, place)),
            Call::Resources => resources(&mut self.pool, pool_of(self.alloc, 0)),
            _ => pool_told(&mut self.pool, call),
        };
        Some((told, self.pool.next_wake()))
    }
}

fn made<T: Drop>(things: &mut Vec<Option<T>>, thing: T) -> Reply {
    match things.push(Some(thing)) {
        Ok(()) => Reply::Made,
        Err(_) => Reply::Unknown,
    }
}

fn taken<T>(things: &mut Vec<Option<T>>, place: usize) -> Option<T> {
    things.get_mut(place)?.take()
}

fn polled(
    pool: &mut Pool,
    asks: &mut Asks,
    leases: &mut Leases,
    place: usize,
    waker: u64,
) -> Reply {
    let Some(Some(wait)) = asks.get_mut(place) else {
        return Reply::Unknown;
    };
    if !pool.poll_lease_allowed(wait) {
        return Reply::Unknown;
    }
    match pool.poll_lease(wait, waker) {
        Ok(LeasePoll::Got(lease)) => leased(leases, lease),
        Ok(LeasePoll::Pending) => Reply::Pending,
        Ok(LeasePoll::Closed) => Reply::Gone,
        Err(_) => Reply::Unknown,
    }
}

fn leased(leases: &mut Leases, lease: Lease<u64>) -> Reply {
    let told = Reply::Leased(lease.slot(), *lease.resource());
    match leases.push(Some(lease)) {
        Ok(()) => told,
        Err(_) => Reply::Unknown,
    }
}

fn wait_polled(pool: &mut Pool, waits: &mut Waits, place: usize, waker: u64) -> Reply {
    let Some(Some(wait)) = waits.get_mut(place) else {
        return Reply::Unknown;
    };
    if !pool.poll_drained_allowed(wait) {
        return Reply::Unknown;
    }
    match pool.poll_drained(wait, waker) {
        Ok(Poll::Ready(())) => Reply::Ready,
        Ok(Poll::Pending) => Reply::Pending,
        Err(_) => Reply::Unknown,
    }
}

fn ended(pool: &mut Pool, wait: Option<LeaseWait>) -> Reply {
    let Some(wait) = wait else {
        return Reply::Unknown;
    };
    if !pool.cancel_lease_allowed(&wait) {
        return Reply::Unknown;
    }
    pool.cancel_lease(wait);
    Reply::Done
}

fn wait_ended(pool: &mut Pool, wait: Option<DrainWait>) -> Reply {
    let Some(wait) = wait else {
        return Reply::Unknown;
    };
    if !pool.end_drain_allowed(&wait) {
        return Reply::Unknown;
    }
    pool.end_drain(wait);
    Reply::Done
}

fn used(leases: &mut Leases, place: usize, value: u64) -> Reply {
    match leases.get_mut(place) {
        Some(Some(lease)) => {
            *lease.resource_mut() = value;
            Reply::Done
        }
        _ => Reply::Unknown,
    }
}

fn put_back(pool: &mut Pool, lease: Option<Lease<u64>>) -> Reply {
    let Some(lease) = lease else {
        return Reply::Unknown;
    };
    if !pool.put_back_allowed(&lease) {
        return Reply::Unknown;
    }
    pool.put_back(lease);
    Reply::Done
}

fn resources(pool: &mut Pool, empty: Option<Pool>) -> Reply {
    let Some(empty) = empty else {
        return Reply::Unknown;
    };
    if !pool.is_drained() {
        return Reply::Unknown;
    }
    match mem::replace(pool, empty).into_resources().as_slice() {
        [first, second] => Reply::Two(*first, *second),
        _ => Reply::Unknown,
    }
}

fn pool_told(pool: &mut Pool, call: Call) -> Reply {
    let yes = match call {
        Call::Drain => {
            pool.drain();
            return Reply::Done;
        }
        Call::Idle => return Reply::Count(pool.idle()),
        Call::IsDraining => pool.is_draining(),
        _ => pool.is_drained(),
    };
    if yes { Reply::Yes } else { Reply::No }
}
