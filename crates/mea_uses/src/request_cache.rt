use crate::task::{Call, Task};
use mea::AtOnce;
use mea::once::OnceMap;
use mea::singleflight::Group;
use std::hash::{BuildHasherDefault, FoldHasher};
use std::sync::Wait;
use std::sync::atomic::AtomicU64;
use std::sync::atomic::Ordering::SeqCst;

// Requests by number. Those that are asked for at a time are made once, and what may be kept is.
#[derive(Drop)]
struct Cache {
    kept: OnceMap<u64, u64, BuildHasherDefault<FoldHasher>, Call>,
    flights: Group<u64, u64, BuildHasherDefault<FoldHasher>, Call>,
    requests: AtomicU64,
}

impl Cache {
    fn request(&self, number: u64) -> u64 {
        self.requests.fetch_add(1, SeqCst);
        number.wrapping_mul(10)
    }

    fn fresh<R: Wait>(&self, rt: &R, task: &Task, number: u64) -> Option<u64> {
        task.now(
            rt,
            self.flights
                .work(number, AtOnce::new(|| self.request(number))),
        )
    }

    fn cached<R: Wait>(&self, rt: &R, task: &Task, number: u64) -> Option<u64> {
        task.now(
            rt,
            self.kept
                .compute(number, AtOnce::new(|| self.request(number))),
        )
    }
}

#[test]
fn a_request_cache(rt: HostRuntime) {
    let task = Task::new(&rt);
    let cache = Cache {
        kept: OnceMap::new(rt.alloc()),
        flights: Group::new(rt.alloc()),
        requests: AtomicU64::new(0),
    };
    assert!(rt; cache.cached(&rt, &task, 4) == Some(40));
    assert!(rt; cache.cached(&rt, &task, 4) == Some(40));
    assert!(rt; cache.requests.load(SeqCst) == 1);
    // What has gone stale is made anew.
    cache.kept.discard(&rt, &4);
    assert!(rt; cache.cached(&rt, &task, 4) == Some(40));
    assert!(rt; cache.requests.load(SeqCst) == 2);
    assert!(rt; cache.fresh(&rt, &task, 4) == Some(40));
    assert!(rt; cache.requests.load(SeqCst) == 3);
}
