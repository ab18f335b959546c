//! Those of the crowd who have an end of a oneshot.
ghost use Rattle.std.specs.Prelude.{IsSome, IfSome};

use crate::makes::{Makes, Member};
use crate::tickets::{Kind, Ticket};
use futures::Future;
use futures::task::{Context, Poll};
use mea::PollFault;
use mea::oneshot::{Plain, Receiver, RecvError, Sender, channel};
use mea_futures::{Bell, MessageWait, Waiting, wait};
use std::alloc::AllocGlobal;
use std::process::Abort;
use std::sync::Wait;
use std::sync::atomic::AtomicU64;
use std::sync::atomic::Ordering::SeqCst;

/// How many answered, and how many had an answer.
#[derive(Drop)]
pub(crate) struct Oneshots {
    answered: AtomicU64,
    got: AtomicU64,
}

impl Oneshots {
    /// None yet.
    pub(crate) fn new() -> Self {
        Oneshots {
            answered: AtomicU64::new(0),
            got: AtomicU64::new(0),
        }
    }

    /// How many answered, and how many had an answer.
    pub(crate) fn counts(&self) -> (u64, u64) {
        (self.answered.load(SeqCst), self.got.load(SeqCst))
    }
}

/// A task that sends an answer, or ends its sender where it is dropped before.
pub(crate) struct Answers<'a> {
    sender: Option<Sender<Plain<u64>, Bell>>,
    answered: &'a AtomicU64,
}

impl<'a> Drop for Answers<'a> {
    fn drop(self) {
        let Answers {
            sender,
            answered: _,
        } = self;
        if let Some(sender) = sender {
            sender.end();
        }
    }
}

impl<'a> Future for Answers<'a> {
    type Output = ();

    fn poll(&mut self, _cx: &mut Context<'_>) -> Poll<()> {
        if let Some(sender) = self.sender.take() {
            if let Ok(sent) = sender.send(Plain(7)) {
                sent.end();
                self.answered.fetch_add(1, SeqCst);
            }
        }
        Poll::Ready(())
    }
}

/// A task that waits for an answer.
#[derive(Drop)]
pub(crate) struct Asks<'a, F: Future> {
    answer: F,
    got: &'a AtomicU64,
}

impl<'a, T: Drop, E: Drop, F: Future<Output = Result<Result<T, E>, PollFault>>> Future
    for Asks<'a, F> {
    type Output = ();

    ghost can_poll = { λ a. F.can_poll a.answer };

    fn poll(&mut self, cx: &mut Context<'_>) -> Poll<()> {
        match self.answer.poll(cx) {
            Poll::Ready(Ok(Ok(_))) => {
                self.got.fetch_add(1, SeqCst);
                Poll::Ready(())
            }
            Poll::Ready(_) => Poll::Ready(()),
            Poll::Pending => Poll::Pending,
        }
    }
}

/// One that asks by a wait of its own.
pub(crate) type Inquires<'a, R> = Asks<
    'a,
    Waiting<'a, R, MessageWait<Plain<u64>>, Result<Plain<u64>, RecvError>>,
>;

/// Makes those who answer, and for each of them, once it is made, the one who asks.
#[derive(Drop)]
pub(crate) struct Asking<'a, R: Wait> {
    pub(crate) rt: &'a R,
    pub(crate) oneshots: &'a Oneshots,
    // Of the last oneshot that was made, until there is one who asks by it.
    pub(crate) receiver: Option<Receiver<Plain<u64>, Bell>>,
}

impl<'a, R: Wait + AllocGlobal + Abort> Asking<'a, R> {
    // One that answers, of a further oneshot.
    fn answering(&mut self) -> Answers<'a> {
        let oneshots = self.oneshots;
        let ends = channel::<Plain<u64>, Bell>(self.rt.alloc());
        let (sender, receiver) = ends.expect(self.rt, "memory");
        self.receiver = Some(receiver);
        Answers {
            sender: Some(sender),
            answered: &oneshots.answered,
        }
    }

    // The one that asks by this oneshot, and was never polled.
    fn asking(&mut self) -> Option<Inquires<'a, R>>
        ensures { IfSome result (λ a. IsSome a.answer.wait) }
    {
        let rt = self.rt;
        let oneshots = self.oneshots;
        let message = MessageWait::new(self.receiver.take()?);
        let answer = wait(rt, rt.alloc(), message).expect(rt, "memory");
        Some(Asks {
            answer,
            got: &oneshots.got,
        })
    }
}

impl<'a, R: Wait + AllocGlobal + Abort> Makes<Member<Inquires<'a, R>, Answers<'a>>>
    for Asking<'a, R> {
    fn make(&mut self, ticket: Ticket) -> Option<Member<Inquires<'a, R>, Answers<'a>>> {
        match ticket.kind {
            Kind::Asks => Some(Member::First(self.asking()?)),
            Kind::Answers => Some(Member::Other(self.answering())),
            _ => None,
        }
    }
}
