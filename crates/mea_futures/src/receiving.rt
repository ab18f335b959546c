ghost use Rattle.std.specs.Prelude.{◌≡◌};

use crate::bell::Bell;
use futures::Stream;
use futures::task::{Context, Poll, Source};
use mea_base::NoMemory;
use mea_link::broadcast::overflow;
use mea_link::mpsc::{BoundedReceiver, RecvError, TryRecvError, UnboundedReceiver};
use mea_wait::{End, Kept, PollFault, Polled, Unpolled, Waits};
use std::alloc::Global;
use std::marker::PhantomData;
use std::sync::Wait;
use thiserror::Error;

/// This many messages of a broadcast were lost, since the receiver was slow; it goes on at the oldest that is kept.
#[derive(Debug, Clone, Copy, PartialEq, Eq, Error)]
#[error("receiver has been lagged by {0}")]
pub struct Lagged(pub u64);

/// A receiver that gives its messages one after another, and None once no more come: each of `mea::mpsc` and
/// `mea::broadcast`.
pub trait Receives<M>: End {
    /// The next message where it has come, or None where no more do. It is pending where neither is known without a wait, and
    /// leaves nothing with the receiver then.
    fn take_message<R: Wait>(&mut self, rt: &R) -> Poll<Option<M>>;

    /// Asks for the next message. A pending answer has left the bell with the receiver, until a message comes or no more do.
    fn poll_message<R: Wait>(&mut self, rt: &R, bell: Bell) -> Result<Poll<Option<M>>, PollFault>;
}

// Polls a wait for one message, and ends it where it is not ready: its bell stays with the receiver.
fn poll_once<R: Wait, F: Waits<Bell, O>, O>(
    rt: &R,
    wait: F,
    bell: Bell,
) -> Result<Poll<O>, PollFault>
    requires { F.can_poll wait }
{
    match wait.poll(rt, bell) {
        Ok(Polled::Ready(output)) => Ok(Poll::Ready(output)),
        Ok(Polled::Pending(wait)) => {
            wait.end(rt);
            Ok(Poll::Pending)
        }
        Err(
            Unpolled {
                future,
                waker: _,
                fault,
            },
        ) => {
            future.end(rt);
            Err(fault)
        }
    }
}

impl<T: Drop> Receives<T> for BoundedReceiver<T, Bell> {
    fn take_message<R: Wait>(&mut self, rt: &R) -> Poll<Option<T>> {
        match self.try_recv(rt) {
            Ok(message) => Poll::Ready(Some(message)),
            Err(TryRecvError::Disconnected) => Poll::Ready(None),
            Err(TryRecvError::Empty) => Poll::Pending,
        }
    }

    fn poll_message<R: Wait>(&mut self, rt: &R, bell: Bell) -> Result<Poll<Option<T>>, PollFault> {
        match poll_once(rt, self.recv(), bell)? {
            Poll::Ready(Ok(message)) => Ok(Poll::Ready(Some(message))),
            Poll::Ready(Err(RecvError::Disconnected)) => Ok(Poll::Ready(None)),
            Poll::Pending => Ok(Poll::Pending),
        }
    }
}

impl<T: Drop> Receives<T> for UnboundedReceiver<T, Bell> {
    fn take_message<R: Wait>(&mut self, rt: &R) -> Poll<Option<T>> {
        match self.try_recv(rt) {
            Ok(message) => Poll::Ready(Some(message)),
            Err(TryRecvError::Disconnected) => Poll::Ready(None),
            Err(TryRecvError::Empty) => Poll::Pending,
        }
    }

    fn poll_message<R: Wait>(&mut self, rt: &R, bell: Bell) -> Result<Poll<Option<T>>, PollFault> {
        match poll_once(rt, self.recv(), bell)? {
            Poll::Ready(Ok(message)) => Ok(Poll::Ready(Some(message))),
            Poll::Ready(Err(RecvError::Disconnected)) => Ok(Poll::Ready(None)),
            Poll::Pending => Ok(Poll::Pending),
        }
    }
}

impl<T: Clone + Drop> Receives<Result<T, Lagged>> for overflow::Receiver<T, Bell> {
    fn take_message<R: Wait>(&mut self, rt: &R) -> Poll<Option<Result<T, Lagged>>> {
        match self.try_recv(rt) {
            Ok(message) => Poll::Ready(Some(Ok(message))),
            Err(overflow::TryRecvError::Lagged(lost)) => Poll::Ready(Some(Err(Lagged(lost)))),
            Err(overflow::TryRecvError::Disconnected) => Poll::Ready(None),
            Err(overflow::TryRecvError::Empty | overflow::TryRecvError::NoMemory) => Poll::Pending,
        }
    }

    fn poll_message<R: Wait>(
        &mut self,
        rt: &R,
        bell: Bell,
    ) -> Result<Poll<Option<Result<T, Lagged>>>, PollFault> {
        match poll_once(rt, self.recv(), bell)? {
            Poll::Ready(Ok(message)) => Ok(Poll::Ready(Some(Ok(message)))),
            Poll::Ready(Err(overflow::RecvError::Lagged(lost))) => {
                Ok(Poll::Ready(Some(Err(Lagged(lost)))))
            }
            Poll::Ready(Err(overflow::RecvError::Disconnected)) => Ok(Poll::Ready(None)),
            Poll::Pending => Ok(Poll::Pending),
        }
    }
}

/// The messages of a receiver as a stream. To drop it ends the receiver, with what is queued.
///
/// Where there is no memory to wait or to clone a message, the task asks to be polled again, as the kit's own waits do; no
/// message is lost. What the stream yields no clause says, since each message comes through a lock.
#[derive(Drop)]
pub struct Receiving<'a, R: Wait, C: Receives<M>, M> {
    rt: &'a R,
    receiver: Kept<'a, R, C>,
    bell: Bell,
    // What its bell rings, for this receiver alone.
    rung: Source,
    // The receiver has the bell, unless that was rung since.
    has_bell: bool,
    message: PhantomData<M>,
}

/// Makes a stream of a receiver. It takes memory for the bell; where there is none, the receiver is ended.
pub fn receive<'a, R: Wait, C: Receives<M>, M>(
    rt: &'a R,
    alloc: Global,
    receiver: C,
) -> Result<Receiving<'a, R, C, M>, NoMemory> {
    match Bell::new(alloc) {
        Ok(bell) => Ok(Receiving {
            rt,
            receiver: Kept::new(rt, receiver),
            bell,
            rung: Source::new(),
            has_bell: false,
            message: PhantomData,
        }),
        Err(_) => {
            receiver.end(rt);
            Err(NoMemory)
        }
    }
}

impl<'a, R: Wait, C: Receives<M>, M> Stream for Receiving<'a, R, C, M> {
    type Item = M;

    ghost needs = { λ stream s. s ≡ stream.rung.id };

    fn poll_next(&mut self, cx: &mut Context<'_>) -> Poll<Option<M>> {
        // A receiver that has the bell has no message yet. To ask again would take its channel's lock for nothing.
        if self.has_bell && !self.bell.is_rung() {
            return self.bell.rest(cx, &self.rung);
        }
        // A message that has come is taken as it is: a bell is made for a wait alone.
        if let Poll::Ready(message) = self.receiver.get_mut().take_message(self.rt) {
            self.has_bell = false;
            return Poll::Ready(message);
        }
        let Some(bell) = self.bell.again() else {
            return cx.yield_now();
        };
        let _ = self.bell.calm();
        match self.receiver.get_mut().poll_message(self.rt, bell) {
            Ok(Poll::Ready(message)) => {
                self.has_bell = false;
                Poll::Ready(message)
            }
            Ok(Poll::Pending) => {
                self.has_bell = true;
                self.bell.rest(cx, &self.rung)
            }
            Err(_) => {
                self.has_bell = false;
                cx.yield_now()
            }
        }
    }
}
