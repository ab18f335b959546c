use mea_base::Poll;
use mea_share_core::{FairCore, ShareAcquire, ShareFault, SharedKey};
use mea_test_support::Plays;
use std::alloc::Global;
use std::hash::BuildHasher;

// A call: keys are numbers, and acquires are told apart by the order in which they are made.
#[derive(Clone, Copy)]
pub(crate) enum Step {
    Weigh(u64, u64),
    Weight(u64),
    Try(u64),
    Ask(u64),
    Poll(usize, u64),
    End(usize),
    Release(u64),
    Wake,
    Free,
    Waiters,
}

// What a call told: nothing, that it had no permit, a number, or that there was no further number for this waker.
#[derive(Clone, Copy, PartialEq, Eq)]
pub(crate) enum Reply {
    Done,
    Pending,
    Number(u64),
    Overflow(u64),
}

type Acquires = Vec<Option<ShareAcquire<u64>>>;

// A core, and the acquires that were made.
#[derive(Drop)]
pub(crate) struct Room<S: BuildHasher> {
    alloc: Global,
    core: FairCore<u64, u64, S>,
    acquires: Acquires,
}

impl<S: BuildHasher> Room<S> {
    pub(crate) fn new(alloc: Global, core: FairCore<u64, u64, S>) -> Room<S> {
        Room {
            alloc,
            core,
            acquires: Vec::new(alloc),
        }
    }
}

impl<S: BuildHasher + Drop> Plays for Room<S> {
    type Call = Step;

    type Reply = Reply;

    fn reply(&mut self, step: Step) -> Option<Reply> {
        let core = &mut self.core;
        match step {
            Step::Weigh(key, weight) => weigh(core, &named(self.alloc, key)?, weight),
            Step::Weight(key) => weight_told(core, &named(self.alloc, key)?),
            Step::Try(key) => attempt(core, &named(self.alloc, key)?),
            Step::Ask(key) => ask(&mut self.acquires, named(self.alloc, key)?),
            Step::Poll(place, waker) => poll(core, self.acquires.get_mut(place)?, waker),
            Step::End(place) => end(core, self.acquires.get_mut(place)?),
            Step::Release(key) => release(core, &named(self.alloc, key)?),
            Step::Wake => Some(wake(core)),
            Step::Free => Some(Reply::Number(core.available_permits() as u64)),
            Step::Waiters => Some(Reply::Number(core.num_waiters() as u64)),
        }
    }
}

fn named(alloc: Global, name: u64) -> Option<SharedKey<u64>> {
    match SharedKey::new(alloc, name) {
        Ok(key) => Some(key),
        Err(_) => None,
    }
}

fn weigh<S: BuildHasher + Drop>(
    core: &mut FairCore<u64, u64, S>,
    key: &SharedKey<u64>,
    weight: u64,
) -> Option<Reply> {
    if weight == 0 {
        return None;
    }
    match core.set_weight(key, weight) {
        Ok(()) => Some(Reply::Done),
        Err(_) => None,
    }
}

fn weight_told<S: BuildHasher + Drop>(
    core: &FairCore<u64, u64, S>,
    key: &SharedKey<u64>,
) -> Option<Reply> {
    Some(Reply::Number(core.weight(key)))
}

fn attempt<S: BuildHasher + Drop>(
    core: &mut FairCore<u64, u64, S>,
    key: &SharedKey<u64>,
) -> Option<Reply> {
    match core.try_acquire(key) {
        Ok(true) => Some(Reply::Done),
        Ok(false) => Some(Reply::Pending),
        Err(_) => None,
    }
}

fn ask(acquires: &mut Acquires, key: SharedKey<u64>) -> Option<Reply> {
    match acquires.push(Some(ShareAcquire::new(key))) {
        Ok(()) => Some(Reply::Done),
        Err(_) => None,
    }
}

fn poll<S: BuildHasher + Drop>(
    core: &mut FairCore<u64, u64, S>,
    acquire: &mut Option<ShareAcquire<u64>>,
    waker: u64,
) -> Option<Reply> {
    match core.poll_checked(acquire.as_mut()?, waker) {
        Ok(Poll::Ready(())) => Some(Reply::Done),
        Ok(Poll::Pending) => Some(Reply::Pending),
        Err(ShareFault::Overflow(waker)) => Some(Reply::Overflow(waker)),
        Err(ShareFault::NoMemory(_)) => None,
    }
}

fn end<S: BuildHasher + Drop>(
    core: &mut FairCore<u64, u64, S>,
    acquire: &mut Option<ShareAcquire<u64>>,
) -> Option<Reply> {
    core.cancel_checked(acquire.take()?);
    Some(Reply::Done)
}

fn release<S: BuildHasher + Drop>(
    core: &mut FairCore<u64, u64, S>,
    key: &SharedKey<u64>,
) -> Option<Reply> {
    core.release_checked(key);
    Some(Reply::Done)
}

fn wake<S: BuildHasher + Drop>(core: &mut FairCore<u64, u64, S>) -> Reply {
    match core.next_wake() {
        Some(waker) => Reply::Number(waker),
        None => Reply::Pending,
    }
}
