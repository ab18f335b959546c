use crate::guards::bell;
use crate::pool::leases::pool;
use crate::threads::{Plays, on_threads};
use mea_shared_pool::{Closed, Pool};
use mea_test_support::{Bell, Count, polled_for};
use mea_wait::End;
use std::process::Abort;
use std::sync::Wait;
use std::sync::atomic::AtomicU64;
use std::sync::atomic::Ordering::SeqCst;

// What the threads of a test share.
#[derive(Drop)]
struct Place {
    pool: Pool<u64, Bell>,
    rung: Count,
    // How many leases were got.
    leases: AtomicU64,
    // Whether the first thread drains the pool.
    drains: bool,
}

impl Place {
    fn new(rt: &(impl Abort + AllocGlobal), pool: Pool<u64, Bell>, drains: bool) -> Place {
        Place {
            pool,
            rung: bell(rt),
            leases: AtomicU64::new(0),
            drains,
        }
    }
}

// One wait of a thread, given up before its first poll or after as many polls as told, or polled until it has a lease, by which
// one is added to the resource.
fn asks<R: Wait>(rt: &R, place: &Place, turns: u64) {
    if turns == 0 {
        place.pool.get().end(rt);
        return;
    }
    match polled_for(rt, place.pool.get(), &place.rung, turns) {
        Some(Ok(lease)) => {
            let mut lease = lease;
            *lease = (*lease).wrapping_add(1);
            place.leases.fetch_add(1, SeqCst);
            lease.end(rt);
        }
        Some(Err(Closed)) | None => {}
    }
}

// How many polls a wait has, by the numbers of its thread and of its turn, which are mixed: none to six, or as many as it takes.
fn patience(thread: u64, turn: u64) -> u64 {
    let mixed = (thread.wrapping_mul(1000).wrapping_add(turn)).wrapping_mul(0x9e37_79b9_7f4a_7c15)
        >> 40;
    match mixed % 8 {
        7 => 1_000_000,
        few => few,
    }
}

fn asks_often<R: Wait>(rt: &R, place: &Place, thread: u64) {
    for turn in 0..250u64 {
        asks(rt, place, patience(thread, turn));
    }
}

// Who drains the pool waits for the end of it, and the others ask often.
impl Plays for Place {
    fn plays<R: Wait>(&self, rt: &R, thread: u64) {
        if self.drains && thread == 0 {
            self.pool.drain(rt);
            let _ = polled_for(rt, self.pool.drained(), &self.rung, 10_000_000);
        } else {
            asks_often(rt, self, thread);
        }
    }
}

// What was added to the resources of a pool of three that began with 10, 20 and 30 million, where each is there once.
fn added(resources: &[u64]) -> Option<u64> {
    let mut seen = [false, false, false];
    let mut sum = 0u64;
    for resource in resources {
        let place = (*resource / 10_000_000).checked_sub(1)? as usize;
        if place >= 3 || seen[place] {
            return None;
        }
        seen[place] = true;
        sum = sum.wrapping_add(*resource % 10_000_000);
    }
    if seen == [true, true, true] {
        Some(sum)
    } else {
        None
    }
}

// A thousand waits of four threads, given up at points that are mixed: in the end all resources are there, each once, and what
// was added to them is one for each lease.
#[test]
fn waits_given_up_lose_no_resource(rt: HostRuntime) {
    let resources = vec![in rt.alloc(); 10_000_000u64, 20_000_000, 30_000_000].expect(
        &rt, "memory",
    );
    let pool = Pool::new(rt.alloc(), resources).ok().expect(&rt, "memory");
    let place = Place::new(&rt, pool, false);
    on_threads(&rt, 4, &place);
    assert!(rt; place.pool.idle(&rt) == 3);
    place.pool.drain(&rt);
    assert!(rt; place.pool.is_drained(&rt));
    has_one_for_each_lease(&rt, place);
}

fn has_one_for_each_lease(rt: &impl Abort, place: Place) {
    let Place {
        pool,
        rung: _,
        leases,
        drains: _,
    } = place;
    let leases = leases.load(SeqCst);
    match pool.into_resources() {
        Ok(resources) => {
            assert!(rt; leases > 0 && added(resources.as_slice()) == Some(leases));
        }
        Err(_) => panic!(rt; "a pool that is drained"),
    }
}

// One thread drains the pool and waits for the end, while three ask until they hear of it.
#[test]
fn a_drain_beside_three_who_ask(rt: HostRuntime) {
    let place = Place::new(&rt, pool(&rt, 2), true);
    on_threads(&rt, 4, &place);
    assert!(rt; place.pool.is_drained(&rt) && place.pool.idle(&rt) == 2);
}
