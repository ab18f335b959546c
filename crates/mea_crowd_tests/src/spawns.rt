//! A set of tasks on four threads, and a task that may be given up.
use crate::makes::Makes;
use crate::patience::Patience;
use crate::tickets::{Kind, NUMBERS, Ticket};
use futures::Future;
use futures::executor::TaskSet;
use futures::task::{Context, Doorbell, Poll};
use std::alloc::AllocGlobal;
use std::process::Abort;
use std::random::RandomSource;
use std::sync::Wait;
use std::sync::atomic::AtomicU64;
use std::sync::atomic::Ordering::SeqCst;
use std::thread;
use std::thread::Threads;

/// How many tasks were spawned, and how many have ended.
#[derive(Drop)]
pub(crate) struct Tally {
    spawned: AtomicU64,
    ended: AtomicU64,
}

impl Tally {
    /// None yet.
    pub(crate) fn new() -> Self {
        Tally {
            spawned: AtomicU64::new(0),
            ended: AtomicU64::new(0),
        }
    }

    /// How many were spawned, and how many of them have ended.
    pub(crate) fn counts(&self) -> (u64, u64) {
        (self.spawned.load(SeqCst), self.ended.load(SeqCst))
    }
}

/// A task that is given up where its patience has gone.
#[derive(Drop)]
pub(crate) struct Impatient<'a, F: Future> {
    task: F,
    patience: Patience,
    tally: &'a Tally,
}

impl<'a, F: Future<Output = ()>> Future for Impatient<'a, F> {
    type Output = ();

    ghost can_poll = { λ i. F.can_poll i.task };

    fn poll(&mut self, cx: &mut Context<'_>) -> Poll<()> {
        if self.patience.is_gone() || self.task.poll(cx).is_ready() {
            self.tally.ended.fetch_add(1, SeqCst);
            return Poll::Ready(());
        }
        self.patience = self.patience.worn();
        if self.patience.is_restless() {
            cx.yield_now()
        } else {
            Poll::Pending
        }
    }
}

// Spawns the task that is wanted.
fn spawn<'a, R: Abort, F: Future<Output = ()>, M: Makes<F>>(
    rt: &R,
    tasks: &TaskSet<Impatient<'a, F>>,
    tally: &'a Tally,
    makers: &mut M,
    ticket: Ticket,
) {
    let task = makers.make(ticket).expect(rt, "one who makes it");
    let impatient = Impatient {
        task,
        patience: ticket.patience,
        tally,
    };
    assert!(rt; tasks.spawn(impatient).is_ok());
    tally.spawned.fetch_add(1, SeqCst);
}

// Spawns the task with this number; of a oneshot, both ends.
fn spawn_numbered<'a, R: Abort, F: Future<Output = ()>, M: Makes<F>>(
    rt: &R,
    tasks: &TaskSet<Impatient<'a, F>>,
    tally: &'a Tally,
    makers: &mut M,
    number: u64,
) {
    let ticket = Ticket::of(number);
    if ticket.asks() {
        spawn(rt, tasks, tally, makers, Ticket::answering(number));
    }
    spawn(rt, tasks, tally, makers, ticket);
}

// Spawns those who set the flag, open the latch and ask for the shutdown.
fn spawn_openers<'a, R: Abort, F: Future<Output = ()>, M: Makes<F>>(
    rt: &R,
    tasks: &TaskSet<Impatient<'a, F>>,
    tally: &'a Tally,
    makers: &mut M,
) {
    spawn(rt, tasks, tally, makers, Ticket::alone(Kind::Notifies));
    spawn(rt, tasks, tally, makers, Ticket::alone(Kind::Opens));
    spawn(rt, tasks, tally, makers, Ticket::alone(Kind::Shuts));
}

/// What tasks a set is given.
pub(crate) trait Spawns<F: Future> {
    fn spawn_on(self, tasks: &TaskSet<F>);
}

/// All who make tasks, and the tally of what they make.
#[derive(Drop)]
pub(crate) struct Crew<'a, R: Abort, M> {
    pub(crate) rt: &'a R,
    pub(crate) tally: &'a Tally,
    pub(crate) makers: M,
}

impl<'a, R: Abort, F: Future<Output = ()>, M: Makes<F> + Drop> Spawns<Impatient<'a, F>>
    for Crew<'a, R, M> {
    fn spawn_on(self, tasks: &TaskSet<Impatient<'a, F>>) {
        let Crew {
            rt,
            tally,
            mut makers,
        } = self;
        for number in 0..NUMBERS {
            if number == NUMBERS / 2 {
                spawn_openers(rt, tasks, tally, &mut makers);
            }
            spawn_numbered(rt, tasks, tally, &mut makers, number);
        }
        // What is sent is taken by those who come last.
        spawn(rt, tasks, tally, &mut makers, Ticket::alone(Kind::Takes));
        spawn(rt, tasks, tally, &mut makers, Ticket::alone(Kind::Collects));
    }
}

// Two of the four threads below.
fn two_workers<R: Wait + Threads + Sync, F: Future<Output = ()> + Send>(
    rt: &R,
    tasks: &TaskSet<F>,
) {
    thread::join(rt, || tasks.work(rt, 2), || tasks.work(rt, 3));
}

// Three of them.
fn three_workers<R: Wait + Threads + Sync, F: Future<Output = ()> + Send>(
    rt: &R,
    tasks: &TaskSet<F>,
) {
    thread::join(rt, || tasks.work(rt, 1), || two_workers(rt, tasks));
}

// Four threads work at a set until no task is left.
fn four_workers<R: Wait + Threads + Sync, F: Future<Output = ()> + Send>(
    rt: &R,
    tasks: &TaskSet<F>,
) {
    thread::join(rt, || tasks.work(rt, 0), || three_workers(rt, tasks));
}

/// Four threads work at the tasks that are spawned, until none is left.
pub(crate) fn on_four_threads<
    R: Wait + Threads + Sync + RandomSource + AllocGlobal + Abort,
    F: Future<Output = ()> + Send,
    S: Spawns<F> + Drop,
>(rt: &R, members: S) {
    let tasks = TaskSet::new(rt, Doorbell::parking(), 4).expect(rt, "memory");
    members.spawn_on(&tasks);
    four_workers(rt, &tasks);
}
