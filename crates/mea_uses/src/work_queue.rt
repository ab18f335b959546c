use crate::task::{Call, Task};
use mea::condvar::Condvar;
use mea::mutex::{Mutex, MutexGuard};
use mea::{End, Waits};
use std::process::Abort;
use std::sync::Wait;

// What a worker or a bringer has of the queue.
type Queue<'a> = MutexGuard<'a, Option<u64>, Call>;

// Brings a job.
fn bring<R: Wait>(rt: &R, queue: Option<Queue<'_>>, job: u64) {
    if let Some(mut queue) = queue {
        *queue = Some(job);
        queue.end(rt);
    }
}

// Takes the job that there is.
fn take<R: Wait>(rt: &R, queue: Option<Queue<'_>>) -> Option<u64> {
    let mut queue = queue?;
    let job = queue.take();
    queue.end(rt);
    job
}

// A worker waits while there is no job; who brings one notifies it.
#[test]
fn a_work_queue(rt: HostRuntime) {
    let worker = Task::new(&rt);
    let jobs = Mutex::new(rt.alloc(), None);
    let brought = Condvar::new(rt.alloc());
    let guard = jobs.try_lock(&rt).expect(&rt, "a free lock");
    let wait = brought.wait_while(guard, |job: &mut Option<u64>| job.is_none());
    a_job_is_brought(&rt, &worker, &jobs, &brought, wait);
}

fn a_job_is_brought<'q, R: Wait + Abort, F: Waits<Call, Queue<'q>>>(
    rt: &R,
    worker: &Task,
    jobs: &Mutex<Option<u64>, Call>,
    brought: &Condvar<Call>,
    wait: F,
)
    requires { F.can_poll wait }
{
    let wait = worker.queues(rt, wait).expect(rt, "no job");
    // A notification without a job is none for the worker: it asks the condition and waits on.
    brought.notify_one(rt);
    assert!(rt; worker.calls() == 1);
    let wait = worker.queues(rt, wait);
    bring(rt, jobs.try_lock(rt), 7);
    brought.notify_one(rt);
    assert!(rt; worker.calls() == 2);
    assert!(rt; take(rt, worker.again(rt, wait)) == Some(7));
}
