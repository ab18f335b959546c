use crate::job::{Job, Seen, acquire, shared};
use crate::waits::holding;
use futures::Future;
use futures::executor::{LocalPool, TaskSet};
use futures::task::Doorbell;
use mea_futures::{Acquiring, Bell, Kept};
use mea_sync::semaphore::{OwnedSemaphorePermit, Semaphore};
use std::alloc::AllocGlobal;
use std::process::Abort;
use std::random::RandomSource;
use std::sync::{Arc, Wait};
use std::thread;
use std::thread::Threads;

// What makes tasks for a pool or a set, which need not know what they own.
trait Makes<F: Future> {
    // One that was never polled.
    fn make(&self) -> F
        ensures { F.can_poll result };
}

// Makes jobs that share a semaphore.
#[derive(Drop)]
struct Jobs<'a, R: Wait> {
    rt: &'a R,
    semaphore: &'a Arc<Semaphore<Bell>>,
    seen: &'a Seen,
}

// A job that holds its permit in what is ended where it is dropped.
type OwnedJob<'a, R> = Job<'a, Acquiring<'a, R>, Kept<'a, R, OwnedSemaphorePermit<Bell>>>;

impl<'a, R: Wait + AllocGlobal + Abort> Makes<OwnedJob<'a, R>> for Jobs<'a, R> {
    fn make(&self) -> OwnedJob<'a, R> {
        let wait = acquire(self.rt, self.semaphore, 1);
        Job::new(self.seen, holding(self.rt, wait))
    }
}

// Eight jobs on the kit's pool of one thread.
fn on_a_pool<
    R: Wait + RandomSource + AllocGlobal + Abort,
    F: Future<Output = ()>,
    M: Makes<F> + Drop,
>(rt: &R, jobs: M) {
    let mut pool = LocalPool::new(rt).expect(rt, "memory");
    let spawner = pool.spawner().expect(rt, "memory");
    for _ in 0..8u32 {
        assert!(rt; spawner.spawn(jobs.make()).is_ok());
    }
    pool.run(rt);
}

// Three acquire at their first poll and end at their second. The five others are polled once more, as they are woken: no poll
// comes that was not asked for.
#[test]
fn eight_jobs_on_one_thread(rt: HostRuntime) {
    let semaphore = shared(&rt, 3);
    let seen = Seen::new();
    let jobs = Jobs {
        rt: &rt,
        semaphore: &semaphore,
        seen: &seen,
    };
    on_a_pool(&rt, jobs);
    assert!(rt; seen.counts() == (8, 3, 21));
    assert!(rt; semaphore.available_permits(&rt) == 3);
}

// Two of the three threads below.
fn two_workers<R: Wait + Threads + Sync, F: Future<Output = ()> + Send>(
    rt: &R,
    tasks: &TaskSet<F>,
) {
    thread::join(rt, || tasks.work(rt, 1), || tasks.work(rt, 2));
}

// Three threads work at a set until no task is left. It stands alone, since the borrow checker does not cover these closures
// in a function that names the lifetime of its tasks.
fn three_workers<R: Wait + Threads + Sync, F: Future<Output = ()> + Send>(
    rt: &R,
    tasks: &TaskSet<F>,
) {
    thread::join(rt, || tasks.work(rt, 0), || two_workers(rt, tasks));
}

// The same on the kit's set of tasks, at which three threads work.
fn on_a_set<
    R: Wait + Threads + Sync + RandomSource + AllocGlobal + Abort,
    F: Future<Output = ()> + Send,
    M: Makes<F> + Drop,
>(rt: &R, jobs: M) {
    let tasks = TaskSet::new(rt, Doorbell::parking(), 3).expect(rt, "memory");
    for _ in 0..8u32 {
        assert!(rt; tasks.spawn(jobs.make()).is_ok());
    }
    three_workers(rt, &tasks);
}

// On three threads a job is polled as often as on one, or less: who comes late may find a permit.
#[test]
fn eight_jobs_on_three_threads(rt: HostRuntime) {
    for _ in 0..20u32 {
        let semaphore = shared(&rt, 3);
        let seen = Seen::new();
        let jobs = Jobs {
            rt: &rt,
            semaphore: &semaphore,
            seen: &seen,
        };
        on_a_set(&rt, jobs);
        let (done, most, polls) = seen.counts();
        assert!(rt; done == 8 && most <= 3 && polls <= 21);
        assert!(rt; semaphore.available_permits(&rt) == 3);
    }
}
