//! The crowd: a thousand tasks and more over all primitives, on four threads.
//!
//! It is put together one primitive at a time. Each of the functions below is given what makes the tasks of the one before, and
//! what makes those of all before that, and is generic in both. It joins them, and hands them on beside what makes its own. So the
//! proof of each puts the types of its own tasks together, and no others.
use crate::channels::{Channels, Ends, Posting, Saying, Telling};
use crate::keeps::{Calling, Filling, Keeps};
use crate::keyed::{Flying, Mapping};
use crate::locks::{Acquiring, Adding, Admitting, Boarding, Hearing, Locks};
use crate::makes::{Both, Makes};
use crate::meets::{Arriving, Meets, Passing, Stopping};
use crate::oneshots::Asking;
use crate::spawns::{Crew, Tally, on_four_threads};
use crate::tickets::NUMBERS;
use futures::Future;
use futures::test::MockTask;
use mea::broadcast::overflow;
use mea::mpsc::{bounded, unbounded};
use mea::shutdown::new_pair;
use mea::waitgroup::WaitGroup;
use mea_futures::{Bell, Kept, receive};
use std::alloc::{AllocError, AllocGlobal, Global};
use std::process::Abort;
use std::random::RandomSource;
use std::sync::Wait;
use std::thread::Threads;

// What the crowd shares.
#[derive(Drop)]
struct Place {
    tally: Tally,
    locks: Locks,
    meets: Meets,
    channels: Channels,
    keeps: Keeps,
}

impl Place {
    // Nothing done yet.
    fn new(alloc: Global) -> Result<Self, AllocError> {
        Ok(Place {
            tally: Tally::new(),
            locks: Locks::new(alloc)?,
            meets: Meets::new(alloc, NUMBERS)?,
            channels: Channels::new(),
            keeps: Keeps::new(alloc),
        })
    }
}

// All who were put together, on four threads.
fn crowd_of<
    'a,
    R: Wait + Threads + Sync + RandomSource + AllocGlobal + Abort,
    F: Future<Output = ()> + Send,
    L: Makes<F> + Drop,
    G: Future<Output = ()> + Send,
    M: Makes<G> + Drop,
>(rt: &'a R, place: &'a Place, last: L, others: M) {
    let crew = Crew {
        rt,
        tally: &place.tally,
        makers: Both { last, others },
    };
    on_four_threads(rt, crew);
}

// Those who share what a group computes.
fn with_flights<
    'a,
    R: Wait + Threads + Sync + RandomSource + AllocGlobal + Abort,
    F: Future<Output = ()> + Send,
    L: Makes<F> + Drop,
    G: Future<Output = ()> + Send,
    M: Makes<G> + Drop,
>(rt: &'a R, place: &'a Place, last: L, others: M) {
    let flying = Flying {
        rt,
        keeps: &place.keeps,
    };
    let others = Both { last, others };
    crowd_of(rt, place, flying, others);
}

// Those who want a value of the map.
fn with_map<
    'a,
    R: Wait + Threads + Sync + RandomSource + AllocGlobal + Abort,
    F: Future<Output = ()> + Send,
    L: Makes<F> + Drop,
    G: Future<Output = ()> + Send,
    M: Makes<G> + Drop,
>(rt: &'a R, place: &'a Place, last: L, others: M) {
    let mapping = Mapping {
        rt,
        keeps: &place.keeps,
    };
    let others = Both { last, others };
    with_flights(rt, place, mapping, others);
}

// Those who want a call that is made once.
fn with_once<
    'a,
    R: Wait + Threads + Sync + RandomSource + AllocGlobal + Abort,
    F: Future<Output = ()> + Send,
    L: Makes<F> + Drop,
    G: Future<Output = ()> + Send,
    M: Makes<G> + Drop,
>(rt: &'a R, place: &'a Place, last: L, others: M) {
    let calling = Calling {
        rt,
        keeps: &place.keeps,
    };
    let others = Both { last, others };
    with_map(rt, place, calling, others);
}

// Those who want the value of the cell.
fn with_cell<
    'a,
    R: Wait + Threads + Sync + RandomSource + AllocGlobal + Abort,
    F: Future<Output = ()> + Send,
    L: Makes<F> + Drop,
    G: Future<Output = ()> + Send,
    M: Makes<G> + Drop,
>(rt: &'a R, place: &'a Place, last: L, others: M) {
    let filling = Filling {
        rt,
        keeps: &place.keeps,
    };
    let others = Both { last, others };
    with_once(rt, place, filling, others);
}

// Those at the ends of oneshots.
fn with_oneshots<
    'a,
    R: Wait + Threads + Sync + RandomSource + AllocGlobal + Abort,
    F: Future<Output = ()> + Send,
    L: Makes<F> + Drop,
    G: Future<Output = ()> + Send,
    M: Makes<G> + Drop,
>(rt: &'a R, place: &'a Place, last: L, others: M) {
    let asking = Asking {
        rt,
        oneshots: &place.channels.oneshots,
        receiver: None,
    };
    let others = Both { last, others };
    with_cell(rt, place, asking, others);
}

// Those at a broadcast.
fn with_broadcast<
    'a,
    R: Wait + Threads + Sync + RandomSource + AllocGlobal + Abort,
    F: Future<Output = ()> + Send,
    L: Makes<F> + Drop,
    G: Future<Output = ()> + Send,
    M: Makes<G> + Drop,
>(rt: &'a R, place: &'a Place, last: L, others: M) {
    let (hub, listener) = overflow::channel::<u64, Bell>(rt.alloc(), 128).expect(rt, "memory");
    let hub = Kept::new(rt, hub);
    drop(listener);
    let telling = Telling {
        rt,
        channels: &place.channels,
        hub,
    };
    let others = Both { last, others };
    with_oneshots(rt, place, telling, others);
}

// Those at a channel without bounds.
fn with_unbounded<
    'a,
    R: Wait + Threads + Sync + RandomSource + AllocGlobal + Abort,
    F: Future<Output = ()> + Send,
    L: Makes<F> + Drop,
    G: Future<Output = ()> + Send,
    M: Makes<G> + Drop,
>(rt: &'a R, place: &'a Place, last: L, others: M) {
    let (speaker, queue) = unbounded::<u64, Bell>(rt.alloc()).expect(rt, "memory");
    let speaker = Kept::new(rt, speaker);
    let queue = receive(rt, rt.alloc(), queue).expect(rt, "memory");
    let saying = Saying {
        rt,
        channels: &place.channels,
        speaker,
        stream: Some(queue),
    };
    let others = Both { last, others };
    with_broadcast(rt, place, saying, others);
}

// Those at a channel of two places.
fn with_bounded<
    'a,
    R: Wait + Threads + Sync + RandomSource + AllocGlobal + Abort,
    F: Future<Output = ()> + Send,
    L: Makes<F> + Drop,
    G: Future<Output = ()> + Send,
    M: Makes<G> + Drop,
>(rt: &'a R, place: &'a Place, last: L, others: M) {
    let (sender, receiver) = bounded::<u64, Bell>(rt.alloc(), 2).expect(rt, "memory");
    let sender = Kept::new(rt, sender);
    let stream = receive(rt, rt.alloc(), receiver).expect(rt, "memory");
    let senders = Kept::new(rt, WaitGroup::new(rt.alloc()).expect(rt, "memory"));
    let posting = Posting {
        rt,
        channels: &place.channels,
        sender: sender.get(),
        ends: Some(Ends { senders, stream }),
    };
    let others = Both { last, others };
    with_unbounded(rt, place, posting, others);
}

// Those at a shutdown.
fn with_shutdown<
    'a,
    R: Wait + Threads + Sync + RandomSource + AllocGlobal + Abort,
    F: Future<Output = ()> + Send,
    L: Makes<F> + Drop,
    G: Future<Output = ()> + Send,
    M: Makes<G> + Drop,
>(rt: &'a R, place: &'a Place, last: L, others: M) {
    let (sender, receiver) = new_pair::<Bell>(rt.alloc()).expect(rt, "memory");
    let stopping = Stopping {
        rt,
        sender: &sender,
        receiver: Kept::new(rt, receiver),
    };
    let others = Both { last, others };
    with_bounded(rt, place, stopping, others);
}

// Those at the barrier.
fn with_barrier<
    'a,
    R: Wait + Threads + Sync + RandomSource + AllocGlobal + Abort,
    F: Future<Output = ()> + Send,
    L: Makes<F> + Drop,
    G: Future<Output = ()> + Send,
    M: Makes<G> + Drop,
>(rt: &'a R, place: &'a Place, last: L, others: M) {
    let arriving = Arriving {
        rt,
        meets: &place.meets,
    };
    let others = Both { last, others };
    with_shutdown(rt, place, arriving, others);
}

// Those at the latch.
fn with_latch<
    'a,
    R: Wait + Threads + Sync + RandomSource + AllocGlobal + Abort,
    F: Future<Output = ()> + Send,
    L: Makes<F> + Drop,
    G: Future<Output = ()> + Send,
    M: Makes<G> + Drop,
>(rt: &'a R, place: &'a Place, last: L, others: M) {
    let passing = Passing {
        rt,
        meets: &place.meets,
    };
    let others = Both { last, others };
    with_barrier(rt, place, passing, others);
}

// Those at the condition variable.
fn with_flag<
    'a,
    R: Wait + Threads + Sync + RandomSource + AllocGlobal + Abort,
    F: Future<Output = ()> + Send,
    L: Makes<F> + Drop,
    G: Future<Output = ()> + Send,
    M: Makes<G> + Drop,
>(rt: &'a R, place: &'a Place, last: L, others: M) {
    let hearing = Hearing {
        rt,
        locks: &place.locks,
    };
    let others = Both { last, others };
    with_latch(rt, place, hearing, others);
}

// Those at the lock of readers and writers.
fn with_board<
    'a,
    R: Wait + Threads + Sync + RandomSource + AllocGlobal + Abort,
    F: Future<Output = ()> + Send,
    L: Makes<F> + Drop,
    G: Future<Output = ()> + Send,
    M: Makes<G> + Drop,
>(rt: &'a R, place: &'a Place, last: L, others: M) {
    let boarding = Boarding {
        rt,
        locks: &place.locks,
    };
    let others = Both { last, others };
    with_flag(rt, place, boarding, others);
}

// Those at the mutex.
fn with_sum<
    'a,
    R: Wait + Threads + Sync + RandomSource + AllocGlobal + Abort,
    F: Future<Output = ()> + Send,
    L: Makes<F> + Drop,
    G: Future<Output = ()> + Send,
    M: Makes<G> + Drop,
>(rt: &'a R, place: &'a Place, last: L, others: M) {
    let adding = Adding {
        rt,
        locks: &place.locks,
    };
    let others = Both { last, others };
    with_board(rt, place, adding, others);
}

// Those who want a permit of a key, those who want one of the semaphore, and with them all others.
fn crowd<R: Wait + Threads + Sync + RandomSource + AllocGlobal + Abort>(rt: &R, place: &Place) {
    let acquiring = Acquiring {
        rt,
        locks: &place.locks,
    };
    let admitting = Admitting {
        rt,
        locks: &place.locks,
    };
    with_sum(rt, place, admitting, acquiring);
}

// A thousand tasks and more, over all primitives, on four threads. Half of them give up, in each stage. Then all have ended, every
// permit is free, nobody has a lock or waits, those who came to the barrier have met and one has led, what was sent was taken,
// those who listen with patience heard all, and what is computed once was.
#[test]
fn a_crowd_that_gives_up(rt: HostRuntime) {
    let place = Place::new(rt.alloc()).expect(&rt, "memory");
    crowd(&rt, &place);
    let (spawned, ended) = place.tally.counts();
    assert!(rt; spawned > NUMBERS && ended == spawned);
    let (worked, heard) = place.locks.counts();
    assert!(rt; worked > 0 && heard > 0 && place.locks.are_free(&rt));
    let (added, sum) = place.locks.sums(&rt);
    assert!(rt; added > 0 && sum == Some(added));
    let (met, led) = place.meets.counts();
    assert!(rt; met > 0 && led == 1 && place.meets.is_open(&rt));
    let (sent, taken) = place.channels.bounded();
    assert!(rt; sent > 0 && taken == sent);
    let (said, collected) = place.channels.unbounded();
    assert!(rt; said > 0 && collected == said);
    let (told, listeners, heard) = place.channels.broadcast();
    assert!(rt; told > 0 && listeners > 0 && heard == told.wrapping_mul(listeners));
    let (answered, got) = place.channels.answers();
    assert!(rt; got > 0 && got <= answered);
    assert!(rt; place.keeps.are_kept(&rt));
    let task = MockTask::new(&rt).expect(&rt, "memory");
    for key in 0..3u64 {
        assert!(rt; place.keeps.is_landed(&rt, &task, key));
    }
}
