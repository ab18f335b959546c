use crate::counts::bell;
use crate::drops::Answer::{Closed, Full, NoMemory, Sent};
use mea_link::mpsc::{
    BoundedReceiver, BoundedSender, SendError, TrySendError, UnboundedError, UnboundedSender,
    bounded, unbounded,
};
use mea_test_support::{Bell, Count, goes_on};
use mea_wait::{End, Kept, Waits};
use std::process::Abort;
use std::sync::{Mutex, Wait};
use std::thread::Threads;
use std::{slice, thread};

// How often a thread looks for what another is to do, before it gives up.
const TURNS: u64 = 10_000_000;

// What a further message of the channel comes to.
#[derive(Clone, Copy, PartialEq, Eq)]
enum Answer {
    Sent,
    Full,
    Closed,
    NoMemory,
}

// What a message asks where it is dropped: what a further one comes to.
#[derive(Clone, Copy, PartialEq, Eq)]
enum Question {
    Unasked,
    Asked,
    Told(Answer),
    // Nobody told it while it was dropped.
    GivenUp,
}

type Desk = Mutex<Question>;

fn unasked() -> Desk {
    Mutex::new(Question::Unasked)
}

fn is_told<R: Wait>(rt: &R, desk: &Desk, answer: Answer) -> bool {
    *desk.lock(rt) == Question::Told(answer)
}

// A message. One with a desk asks its own channel where it is dropped, and waits until it is told. It has no sender for that,
// since no type may hold a lock round itself: another thread has one, and makes the call.
struct Note<'a, R: Wait> {
    rt: &'a R,
    desk: Option<&'a Desk>,
}

impl<'a, R: Wait> Note<'a, R> {
    // One that asks at this desk.
    fn at(rt: &'a R, desk: &'a Desk) -> Self {
        Note {
            rt,
            desk: Some(desk),
        }
    }

    // One that asks nothing.
    fn quiet(rt: &'a R) -> Self {
        Note { rt, desk: None }
    }
}

impl<'a, R: Wait> Drop for Note<'a, R> {
    fn drop(self) {
        let Note { rt, desk } = self;
        if let Some(desk) = desk {
            ask(rt, desk);
        }
    }
}

fn ask<R: Wait>(rt: &R, desk: &Desk) {
    *desk.lock(rt) = Question::Asked;
    for _ in 0..TURNS {
        if *desk.lock(rt) != Question::Asked {
            return;
        }
        thread::yield_now();
    }
    *desk.lock(rt) = Question::GivenUp;
}

// An end that sends, of either channel.
#[derive(Drop)]
enum Sender<'s, 'a, R: Wait> {
    Bounded(&'s BoundedSender<Note<'a, R>, Bell>),
    Unbounded(&'s UnboundedSender<Note<'a, R>, Bell>),
}

impl<'s, 'a, R: Wait> Sender<'s, 'a, R> {
    // What a further message comes to, that asks nothing.
    fn send_quietly(&self, rt: &'a R) -> Answer {
        match self {
            Sender::Bounded(sender) => send_bounded(rt, sender),
            Sender::Unbounded(sender) => send_unbounded(rt, sender),
        }
    }
}

fn send_bounded<'a, R: Wait>(rt: &'a R, sender: &BoundedSender<Note<'a, R>, Bell>) -> Answer {
    match sender.try_send(rt, Note::quiet(rt)) {
        Ok(()) => Sent,
        Err(TrySendError::Full(_)) => Full,
        Err(TrySendError::Disconnected(_)) => Closed,
    }
}

fn send_unbounded<'a, R: Wait>(rt: &'a R, sender: &UnboundedSender<Note<'a, R>, Bell>) -> Answer {
    match sender.send(rt, Note::quiet(rt)) {
        Ok(()) => Sent,
        Err(UnboundedError::Closed(_)) => Closed,
        Err(UnboundedError::NoMemory(_)) => NoMemory,
    }
}

// Waits for the question of each desk in turn, and answers it by a call of the channel.
fn serve<'a, R: Wait>(rt: &'a R, sender: &Sender<'_, 'a, R>, desks: &[Desk]) {
    for desk in desks {
        serve_one(rt, sender, desk);
    }
}

fn serve_one<'a, R: Wait>(rt: &'a R, sender: &Sender<'_, 'a, R>, desk: &Desk) {
    for _ in 0..TURNS {
        if *desk.lock(rt) == Question::Asked {
            tell(rt, desk, sender.send_quietly(rt));
            return;
        }
        thread::yield_now();
    }
}

// Tells the answer, if who asked still waits for it.
fn tell<R: Wait>(rt: &R, desk: &Desk, answer: Answer) {
    let mut question = desk.lock(rt);
    if *question == Question::Asked {
        *question = Question::Told(answer);
    }
}

// Ends what has these messages, while another thread serves them. Each is told this.
fn are_told<'a, R: Wait + Threads + Sync + Abort, E: End>(
    rt: &'a R,
    sender: &Sender<'_, 'a, R>,
    last: E,
    desks: &[Desk],
    answer: Answer,
) {
    let last = Kept::new(rt, last);
    thread::join(rt, || serve(rt, sender, desks), move || drop(last));
    for desk in desks {
        assert!(rt; is_told(rt, desk, answer));
    }
}

// The end of a receiver drops the messages once it has let the lock go, so each may call the channel, which is closed by then.
#[test]
fn messages_of_a_bounded_channel(rt: HostRuntime) {
    let desks = [unasked(), unasked()];
    let (sender, receiver) = bounded(rt.alloc(), 2).expect(&rt, "memory");
    let sender: BoundedSender<Note<'_, HostRuntime>, Bell> = sender;
    for desk in &desks {
        assert!(rt; sender.try_send(&rt, Note::at(&rt, desk)).is_ok());
    }
    are_told(&rt, &Sender::Bounded(&sender), receiver, &desks, Closed);
    sender.end(&rt);
}

#[test]
fn messages_of_an_unbounded_channel(rt: HostRuntime) {
    let desks = [unasked(), unasked()];
    let (sender, receiver) = unbounded(rt.alloc()).expect(&rt, "memory");
    let sender: UnboundedSender<Note<'_, HostRuntime>, Bell> = sender;
    for desk in &desks {
        assert!(rt; sender.send(&rt, Note::at(&rt, desk)).is_ok());
    }
    are_told(&rt, &Sender::Unbounded(&sender), receiver, &desks, Closed);
    sender.end(&rt);
}

// So does the end of a send that waits: the channel is full while its receiver lives.
#[test]
fn messages_of_sends_that_wait(rt: HostRuntime) {
    let bell = bell(&rt);
    let desks = [unasked(), unasked(), unasked()];
    let (sender, receiver) = bounded(rt.alloc(), 1).expect(&rt, "memory");
    assert!(rt; sender.try_send(&rt, Note::at(&rt, &desks[0])).is_ok());
    let sends = (
        sender.send(Note::at(&rt, &desks[1])),
        sender.send(Note::at(&rt, &desks[2])),
    );
    end_in_turn(&rt, &sender, receiver, sends, &desks, &bell);
    sender.end(&rt);
}

// One send is ended before the receiver, and one after it.
fn end_in_turn<'a, R, F>(
    rt: &'a R,
    sender: &BoundedSender<Note<'a, R>, Bell>,
    receiver: BoundedReceiver<Note<'a, R>, Bell>,
    sends: (F, F),
    desks: &[Desk; 3],
    bell: &Count,
)
where
    R: Wait + Threads + Sync + Abort,
    F: Waits<Bell, Result<(), SendError<Note<'a, R>>>>,
    requires first { F.can_poll sends.0 }
    requires second { F.can_poll sends.1 }
{
    let first = goes_on(rt, sends.0, bell);
    let second = goes_on(rt, sends.1, bell);
    let sender = &Sender::Bounded(sender);
    are_told(rt, sender, first, slice::from_ref(&desks[1]), Full);
    are_told(rt, sender, receiver, slice::from_ref(&desks[0]), Closed);
    are_told(rt, sender, second, slice::from_ref(&desks[2]), Closed);
}
