use mea_base::Poll;
use mea_job_core::{Counts, FinishError, JobCore, Start, SubmitError};
use mea_test_support::Plays;
use std::alloc::Global;

// A call.
#[derive(Clone, Copy)]
pub(crate) enum Step {
    Job(u64, u64, u64),
    Finish(u64, u64),
    Recall(u64),
    Take,
    Back,
    Stop,
    Poll(u64),
    Wake,
    Count,
}

// What a call told.
#[derive(Clone, Copy, PartialEq, Eq)]
pub(crate) enum Reply {
    Running,
    Queued,
    Full,
    Stopped,
    Unknown,
    Done,
    Starts(u64),
    Value(u64),
    Pair(u64, u64),
    Nothing,
    Ready,
    Pending,
    Counted(u64, u64, u64, u64, u64),
}

// A service.
#[derive(Drop)]
pub(crate) struct Room {
    core: JobCore<u64>,
}

impl Room {
    // A service whose counts are above 0, with at most 1,000 permits and as many queued jobs.
    pub(crate) fn new(
        alloc: Global,
        permits: usize,
        most_queued: usize,
        results: usize,
    ) -> Option<Room> {
        if permits == 0
            || most_queued == 0
            || results == 0
            || permits > 1000
            || most_queued > 1000
        {
            return None;
        }
        match JobCore::new(alloc, permits, most_queued, results) {
            Ok(core) => Some(Room { core }),
            Err(_) => None,
        }
    }
}

impl Plays for Room {
    type Call = Step;

    type Reply = Reply;

    fn reply(&mut self, step: Step) -> Option<Reply> {
        let core = &mut self.core;
        match step {
            Step::Job(number, key, value) => submit(core, number, key, value),
            Step::Finish(job, outcome) => Some(finish(core, job, outcome)),
            Step::Recall(job) => Some(recall(core, job)),
            Step::Take => Some(pair(core.take())),
            Step::Back => Some(pair(core.take_back())),
            Step::Stop => Some(stop(core)),
            Step::Poll(waker) => poll(core, waker),
            Step::Wake => Some(wake(core)),
            Step::Count => Some(counted(core.counts())),
        }
    }
}

fn submit(core: &mut JobCore<u64>, number: u64, key: u64, value: u64) -> Option<Reply> {
    if !core.submit_allowed(number) {
        return None;
    }
    match core.submit(number, key, value) {
        Ok(Start::Running) => Some(Reply::Running),
        Ok(Start::Queued) => Some(Reply::Queued),
        Err(SubmitError::Stopped) => Some(Reply::Stopped),
        Err(SubmitError::Full) => Some(Reply::Full),
        Err(SubmitError::NoMemory) => None,
    }
}

fn finish(core: &mut JobCore<u64>, job: u64, outcome: u64) -> Reply {
    match core.finish(job, outcome) {
        Ok(Some(next)) => Reply::Starts(next),
        Ok(None) => Reply::Done,
        Err(FinishError::Unknown) => Reply::Unknown,
        Err(FinishError::Full) => Reply::Full,
    }
}

fn recall(core: &mut JobCore<u64>, job: u64) -> Reply {
    match core.recall(job) {
        Ok(value) => Reply::Value(value),
        Err(_) => Reply::Unknown,
    }
}

fn pair(got: Option<(u64, u64)>) -> Reply {
    match got {
        Some((job, number)) => Reply::Pair(job, number),
        None => Reply::Nothing,
    }
}

fn stop(core: &mut JobCore<u64>) -> Reply {
    core.stop();
    Reply::Done
}

fn poll(core: &mut JobCore<u64>, waker: u64) -> Option<Reply> {
    match core.poll_end(waker) {
        Ok(Poll::Ready(())) => Some(Reply::Ready),
        Ok(Poll::Pending) => Some(Reply::Pending),
        Err(_) => None,
    }
}

fn wake(core: &mut JobCore<u64>) -> Reply {
    match core.next_wake() {
        Some(waker) => Reply::Value(waker),
        None => Reply::Nothing,
    }
}

fn counted(counts: Counts) -> Reply {
    Reply::Counted(
        counts.accepted,
        counts.running,
        counts.queued,
        counts.finished,
        counts.returned,
    )
}
