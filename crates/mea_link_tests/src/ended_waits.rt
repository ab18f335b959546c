use crate::counts::bell;
use crate::meeting_points::has_a_leader;
use mea_base::Poll;
use mea_link::barrier::Barrier;
use mea_link::broadcast::overflow;
use mea_link::latch::Latch;
use mea_link::shutdown::{ShutdownSend, new_pair};
use mea_link::waitgroup::WaitGroup;
use mea_meet_core::{BarrierCore, BarrierWait};
use mea_meet_seats::{CountSeats, Seat, withdraw_from};
use mea_sets::Place;
use mea_test_support::{Bell, Count, PollOutcome, end, gives, goes_on, poll, rung};
use mea_wait::{End, Waits};
use std::process::Abort;
use std::sync::{Arc, Wait};

// Polls a wait that is to go on, and ends it.
fn comes_and_goes<R: Wait, F: Waits<Bell, O>, O: Drop>(rt: &R, wait: F, count: &Count) -> bool
    requires { F.can_poll wait }
{
    match poll(rt, wait, count) {
        PollOutcome::Pending(wait) => {
            wait.end(rt);
            true
        }
        PollOutcome::Ready(_output) => false,
        PollOutcome::Refused => false,
    }
}

// A count of seats, whose calls tell plain values.
#[derive(Drop)]
struct Seats(CountSeats<u64>);

impl Seats {
    // Whether a wait goes on.
    fn pends(&mut self, wait: &mut Option<Place>, waker: u64) -> bool {
        self.0.poll(wait, waker) == Ok(Poll::Pending)
    }

    // Polls so many waits in turn, and ends each; tells whether all of them go on.
    fn come_and_go(&mut self, waits: u64) -> bool {
        let mut go_on = true;
        for waker in 0..waits {
            let mut wait = None;
            let pends = self.pends(&mut wait, waker);
            self.0.withdraw(wait);
            go_on = go_on && pends;
        }
        go_on
    }

    // The places, and how many of them are vacant.
    fn places(&self) -> (usize, usize) {
        (self.0.places(), self.0.vacant())
    }

    // Adds one, and tells how many there are.
    fn add(&mut self) -> Option<u32> {
        self.0.increment().ok()?;
        Some(self.0.count())
    }

    fn next_wake(&mut self) -> Option<Seat<u64>> {
        self.0.next_wake()
    }
}

// A million waits of a latch that are polled and ended take one place in turn.
#[test]
fn a_million_waits_take_one_place(rt: HostRuntime) {
    let mut latch = Seats(CountSeats::new(rt.alloc(), 1));
    assert!(rt; latch.come_and_go(1_000_000));
    assert!(rt; latch.places() == (1, 1));
    a_vacant_place_wakes_nobody(&rt, &mut latch);
}

fn a_vacant_place_wakes_nobody(rt: &impl Abort, latch: &mut Seats) {
    let (mut first, mut second) = (None, None);
    assert!(rt; latch.pends(&mut first, 7));
    assert!(rt; latch.pends(&mut second, 8));
    assert!(rt; latch.places() == (2, 0));
    latch.0.withdraw(first);
    assert!(rt; latch.0.decrement(1) == 2);
    assert!(rt; latch.0.wakes_ready() == 2);
    assert!(rt; latch.next_wake() == Some(Seat::Vacant));
    assert!(rt; latch.next_wake() == Some(Seat::Taken(8)));
    assert!(rt; !latch.pends(&mut second, 9));
    latch.0.withdraw(second);
}

// A wait of a group that ends gives its place to the next; a further poll keeps its own.
#[test]
fn a_place_is_given_back(rt: HostRuntime) {
    let mut group = Seats(CountSeats::new(rt.alloc(), 1));
    assert!(rt; group.add() == Some(2));
    is_given_back(&rt, &mut group);
    assert!(rt; group.0.decrement(1) == 0);
    assert!(rt; group.0.decrement(1) == 2);
    assert!(rt; group.next_wake() == Some(Seat::Taken(4)));
    assert!(rt; group.next_wake() == Some(Seat::Taken(3)));
}

fn is_given_back(rt: &impl Abort, group: &mut Seats) {
    let (mut first, mut second, mut third) = (None, None, None);
    assert!(rt; group.pends(&mut first, 1));
    assert!(rt; group.pends(&mut second, 2));
    group.0.withdraw(first);
    assert!(rt; group.pends(&mut second, 3));
    assert!(rt; group.places() == (2, 1));
    assert!(rt; group.pends(&mut third, 4));
    assert!(rt; group.places() == (2, 0));
}

// A million waits for one shutdown are polled and ended: none keeps its waker, and none is woken.
#[test]
fn a_million_waits_for_a_shutdown(rt: HostRuntime) {
    let bell = bell(&rt);
    let (sender, receiver) = new_pair(rt.alloc()).expect(&rt, "memory");
    for _ in 0..1_000_000u64 {
        assert!(rt; comes_and_goes(&rt, receiver.is_shutdown(), &bell));
    }
    assert!(rt; Arc::strong_count(&bell) == 1);
    one_waits_for_a_shutdown(&rt, &sender, receiver.is_shutdown(), &bell);
    assert!(rt; comes_and_goes(&rt, sender.await_shutdown(), &bell));
    assert!(rt; Arc::strong_count(&bell) == 1);
    receiver.end(&rt);
    assert!(rt; rung(&bell) == 1);
}

fn one_waits_for_a_shutdown<R: Wait + Abort, F: Waits<Bell, ()>>(
    rt: &R,
    sender: &ShutdownSend<Bell>,
    signal: F,
    bell: &Count,
)
    requires { F.can_poll signal }
{
    let signal = goes_on(rt, signal, bell);
    assert!(rt; Arc::strong_count(bell) == 2);
    sender.shutdown(rt);
    assert!(rt; rung(bell) == 1);
    assert!(rt; gives(rt, signal, bell) == Some(()));
}

// A million waits of one receiver are polled and ended before a message comes: one waker is kept, and woken.
#[test]
fn a_million_waits_for_a_message(rt: HostRuntime) {
    let bell = bell(&rt);
    let (sender, mut receiver) = overflow::channel(rt.alloc(), 2).expect(&rt, "memory");
    for _ in 0..1_000_000u64 {
        assert!(rt; comes_and_goes(&rt, receiver.recv(), &bell));
    }
    a_message_comes(&rt, &sender, &mut receiver, &bell);
    receiver.end(&rt);
    sender.end(&rt);
}

fn a_message_comes<R: Wait + Abort>(
    rt: &R,
    sender: &overflow::Sender<u64, Bell>,
    receiver: &mut overflow::Receiver<u64, Bell>,
    bell: &Count,
) {
    assert!(rt; Arc::strong_count(bell) == 2);
    assert!(rt; sender.send(rt, 5).is_ok());
    assert!(rt; rung(bell) == 1);
    assert!(rt; Arc::strong_count(bell) == 1);
    assert!(rt; gives(rt, Some(receiver.recv()), bell) == Some(Ok(5)));
}

// A wait that ended is not woken by its latch or group, and those beside it are. A latch stays at 0.
#[test]
fn only_those_who_wait_are_woken(rt: HostRuntime) {
    let bell = bell(&rt);
    let latch: Latch<Bell> = Latch::new(rt.alloc(), 3);
    let waits = (latch.wait(), latch.wait(), latch.wait());
    one_of_three_is_woken(&rt, &latch, waits, &bell);
    let group: WaitGroup<Bell> = WaitGroup::new(rt.alloc()).expect(&rt, "memory");
    let second = group.clone_handle(&rt).ok();
    let wait = group.into_future(&rt);
    let copy = wait.clone_wait().expect(&rt, "memory");
    nobody_else_is_woken(&rt, second, wait, copy, &bell);
}

fn one_of_three_is_woken<R: Wait + Abort, F: Waits<Bell, ()>>(
    rt: &R,
    latch: &Latch<Bell>,
    waits: (F, F, F),
    bell: &Count,
)
    requires first { F.can_poll waits.0 }
    requires other { F.can_poll waits.1 }
    requires last { F.can_poll waits.2 }
{
    let (first, other, last) = waits;
    assert!(rt; comes_and_goes(rt, first, bell));
    let other = goes_on(rt, other, bell);
    assert!(rt; comes_and_goes(rt, last, bell));
    latch.count_down(rt);
    assert!(rt; latch.count(rt) == 2 && latch.try_wait(rt) == Err(2) && rung(bell) == 0);
    latch.arrive(rt, 5);
    assert!(rt; rung(bell) == 1 && latch.try_wait(rt) == Ok(()));
    assert!(rt; gives(rt, other, bell) == Some(()));
}

// The group's own wait ends, and a copy of it waits on until the last handle has ended.
fn nobody_else_is_woken<R: Wait + Abort, H: End, F: Waits<Bell, ()>>(
    rt: &R,
    second: Option<H>,
    wait: F,
    copy: F,
    bell: &Count,
)
    requires wait { F.can_poll wait }
    requires copy { F.can_poll copy }
{
    assert!(rt; comes_and_goes(rt, wait, bell));
    assert!(rt; Arc::strong_count(bell) == 1);
    let copy = goes_on(rt, copy, bell);
    assert!(rt; end(rt, second));
    assert!(rt; rung(bell) == 2);
    assert!(rt; gives(rt, copy, bell) == Some(()));
}

// The arrival of a wait that ended at a barrier counts, and its waker is gone.
#[test]
fn an_arrival_stays_without_its_waker(rt: HostRuntime) {
    let bell = bell(&rt);
    let barrier = Barrier::new(rt.alloc(), 3);
    assert!(rt; comes_and_goes(&rt, barrier.wait(), &bell));
    assert!(rt; Arc::strong_count(&bell) == 1);
    has_a_leader(&rt, &barrier, &bell);
}

// A barrier of seats, whose calls tell plain values.
#[derive(Drop)]
struct Meeting(BarrierCore<Seat<u64>>);

impl Meeting {
    // Whether a wait goes on.
    fn pends(&mut self, wait: &mut BarrierWait, waker: u64) -> bool {
        matches!(
            self.0.poll_checked(wait, Seat::Taken(waker)),
            Ok(Poll::Pending)
        )
    }

    fn withdraw(&mut self, wait: BarrierWait) {
        withdraw_from(&mut self.0, wait);
    }
}

// A wait that is ended at a barrier to which it does not belong does not arrive there.
#[test]
fn a_wait_of_another_barrier_does_not_arrive(rt: HostRuntime) {
    let mut one = Meeting(BarrierCore::new(rt.alloc(), 2));
    let mut other = Meeting(BarrierCore::new(rt.alloc(), 2));
    does_not_arrive(&rt, &mut one, &mut other);
}

fn does_not_arrive(rt: &impl Abort, one: &mut Meeting, other: &mut Meeting) {
    let (mut wait, mut own) = (BarrierWait::new(), BarrierWait::new());
    assert!(rt; one.pends(&mut wait, 1));
    other.withdraw(wait);
    assert!(rt; other.pends(&mut own, 2));
    other.withdraw(own);
}
