use crate::counts::bell;
use crate::group::Flights;
use mea_base::Poll;
use mea_keep::{Claim, Claiming, Computing, Init, Never, Unfailing};
use mea_test_support::{Bell, Count, PollOutcome, poll, polled_for};
use std::alloc::{AllocError, Global};
use std::sync::Wait;
use std::sync::atomic::AtomicU64;
use std::sync::atomic::Ordering::SeqCst;
use std::thread;

// An initialiser that is pending until so many callers wait, and counts how often it has run.
#[derive(Drop)]
struct Gathers<'a> {
    waiting: &'a AtomicU64,
    all: u64,
    runs: &'a AtomicU64,
}

impl<'a> Init<u64, Never, Bell> for Gathers<'a> {
    ghost use Rattle.std.specs.Prelude.{⊤};

    ghost answers = { λ before waker answer after. ⊤ };

    fn poll(&mut self, _waker: Bell) -> Poll<Result<u64, Never>> {
        if self.waiting.load(SeqCst) < self.all {
            return Poll::Pending;
        }
        self.runs.fetch_add(1, SeqCst);
        Poll::Ready(Ok(7))
    }
}

// One caller of the group.
fn works<R: Wait>(
    rt: &R,
    group: &Flights,
    waiting: &AtomicU64,
    runs: &AtomicU64,
    bell: &Count,
) -> Option<u64> {
    let init = Gathers {
        waiting,
        all: 16,
        runs,
    };
    waits(rt, group.work(1, init), waiting, bell)
}

// What a wait gives whose first poll counts it among those that wait.
fn waits<
    R: Wait,
    F: Claiming<Bell, u64, C>,
    C: Claim<u64, u64, G>,
    G: Claiming<Bell, u64, Never>,
    I: Init<u64, Never, Bell> + Drop,
>(
    rt: &R,
    wait: Unfailing<Computing<F, C, G, I, u64, Never>>,
    waiting: &AtomicU64,
    bell: &Count,
) -> Option<u64>
    requires { (init : I) → I.may_poll init }
{
    let told = poll(rt, wait, bell);
    waiting.fetch_add(1, SeqCst);
    match told {
        PollOutcome::Ready(value) => Some(value),
        PollOutcome::Pending(wait) => polled_for(rt, wait, bell, 10_000_000),
        PollOutcome::Refused => None,
    }
}

// So many answers that have not come.
fn no_answers(alloc: Global, many: u64) -> Result<Vec<Option<u64>>, AllocError> {
    let mut answers = Vec::new(alloc);
    for _ in 0..many {
        answers.push(None)?;
    }
    Ok(answers)
}

// Sixteen threads ask for one key: its initialiser runs once, and each has the value.
#[test]
fn a_single_flight(rt: HostRuntime) {
    let bell = bell(&rt);
    let group = Flights::new(rt.alloc());
    let (waiting, runs) = (AtomicU64::new(0), AtomicU64::new(0));
    let mut answers = no_answers(rt.alloc(), 16).expect(&rt, "memory");
    let (rt, of, waits, run, rung) = (&rt, &group, &waiting, &runs, &bell);
    thread::for_each_mut(
        rt,
        &mut answers,
        16,
        &|_i: usize, answer: &mut Option<u64>| {
            *answer = works(rt, of, waits, run, rung);
        },
    );
    assert!(rt; run.load(SeqCst) == 1);
    for answer in &answers {
        assert!(rt; *answer == Some(7));
    }
}
