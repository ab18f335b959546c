use crate::task::{Call, Task};
use mea::End;
use mea::rwlock::{RwLock, RwLockReadGuard, RwLockWriteGuard};
use std::sync::Wait;

// What a service reads at each request, and an operator changes now and then.
#[derive(Drop)]
struct Config {
    limit: u64,
    version: u64,
}

// The limit that a request finds, and its version. The request ends.
fn found<R: Wait>(
    rt: &R,
    request: Option<RwLockReadGuard<'_, Config, Call>>,
) -> Option<(u64, u64)> {
    let config = request?;
    let found = (config.limit, config.version);
    config.end(rt);
    Some(found)
}

// Sets the limit, if it is the turn of the change.
fn set<R: Wait>(rt: &R, change: Option<RwLockWriteGuard<'_, Config, Call>>, limit: u64) {
    if let Some(mut config) = change {
        config.limit = limit;
        config.version = config.version.wrapping_add(1);
        config.end(rt);
    }
}

#[test]
fn a_config_behind_a_lock(rt: HostRuntime) {
    let task = Task::new(&rt);
    let limits = Config {
        limit: 10,
        version: 1,
    };
    let config = RwLock::new(rt.alloc(), limits);
    // Two requests read beside each other; the change waits for both.
    let first = task.now(&rt, config.read());
    let second = task.now(&rt, config.read());
    let change = task.queues(&rt, config.write());
    assert!(rt; found(&rt, first) == Some((10, 1)));
    assert!(rt; found(&rt, second) == Some((10, 1)));
    assert!(rt; task.calls() == 1);
    set(&rt, task.again(&rt, change), 20);
    assert!(rt; found(&rt, task.now(&rt, config.read())) == Some((20, 2)));
}
