ghost use Rattle.std.specs.Prelude.{◌≡◌, None, IfOk, IfErr};

use crate::bell::Bell;
use crate::waiting::Waiting;
use futures::task::{Context, Poll};
use futures::{Sink, ready};
use mea_base::NoMemory;
use mea_link::mpsc::{BoundedSend, BoundedSender, SendError, TrySendError};
use mea_wait::PollFault;
use std::alloc::Global;
use std::error::Error;
use std::fmt;
use std::sync::Wait;

/// Why an item was not sent.
#[derive(PartialEq, Eq, Drop)]
pub enum FeedError<T> {
    /// The receiver has ended, and the item comes back.
    Closed(T),
    /// A poll was refused, and the item was dropped.
    Refused(PollFault),
}

// The item is not shown, and nothing is asked of its type.
impl<T> fmt::Debug for FeedError<T> {
    fn fmt<O: fmt::Write>(&self, f: &mut fmt::Formatter<O>) -> fmt::Result {
        match self {
            FeedError::Closed(_) => f.write_str("Closed(..)"),
            FeedError::Refused(fault) => write!(f, "Refused({fault:?})"),
        }
    }
}

impl<T> fmt::Display for FeedError<T> {
    fn fmt<O: fmt::Write>(&self, f: &mut fmt::Formatter<O>) -> fmt::Result {
        match self {
            FeedError::Closed(_) => f.write_str("sending on a closed channel"),
            FeedError::Refused(fault) => write!(f, "{fault}"),
        }
    }
}

impl<T: Drop> Error for FeedError<T> {}

/// A bounded sender as a sink. An item goes at once where there is a place, as at each poll of a send. The sink holds one
/// item at most, which else waits for its place behind those who wait; to drop it ends that wait, and drops the item where it
/// was not sent.
///
/// It borrows the sender, which is ended by whoever has it: a sink that is closed has sent all, and no more. What a channel
/// was sent no clause says, since each item goes through a lock; that the sink holds none once it is flushed, one does.
#[derive(Drop)]
pub struct Feeding<'a, R: Wait, T: Drop> {
    sender: &'a BoundedSender<T, Bell>,
    send: Waiting<'a, R, BoundedSend<'a, T, Bell>, Result<(), SendError<T>>>,
}

/// Makes a sink of a bounded sender. It takes memory for the bell.
pub fn feed<'a, R: Wait, T: Drop>(
    rt: &'a R,
    alloc: Global,
    sender: &'a BoundedSender<T, Bell>,
) -> Result<Feeding<'a, R, T>, NoMemory>
    ensures { IfOk result (λ f. f.send.wait ≡ None) }
{
    let send = Waiting::idle(rt, alloc)?;
    Ok(Feeding { sender, send })
}

// Sends the item where there is a place at once, and else makes the wait for one. A send asks for a place at its first poll too,
// so nobody is passed who would not be.
fn offer<'a, R: Wait, T: Drop>(
    rt: &R,
    sender: &'a BoundedSender<T, Bell>,
    item: T,
) -> Result<Option<BoundedSend<'a, T, Bell>>, FeedError<T>>
    ensures { IfErr result (λ e. e ≡ FeedError.Closed item) }
{
    match sender.try_send(rt, item) {
        Ok(()) => Ok(None),
        Err(TrySendError::Full(item)) => Ok(Some(sender.send(item))),
        Err(TrySendError::Disconnected(item)) => Err(FeedError::Closed(item)),
    }
}

impl<'a, R: Wait, T: Drop> Feeding<'a, R, T> {
    ghost use Rattle.std.specs.Prelude.{OnOk};
    ghost use Rattle.futures.specs.Task.{Covers, Keeps};
    ghost use Rattle.futures.specs.Poll.{IfReady, OnPending};

    // Sends the item that it holds.
    fn poll_empty(&mut self, cx: &mut Context<'_>) -> Poll<Result<(), FeedError<T>>>
        ensures empty { IfReady result (λ _. self.new.send.wait ≡ None) }
        ensures registered { OnPending result (Covers cx.new (λ s. s ≡ self.new.send.rung.id)) }
        ensures kept { Keeps cx.old cx.new }
    {
        if self.send.wait.is_none() {
            return Poll::Ready(Ok(()));
        }
        match ready!(self.send.step(cx)) {
            Ok(Ok(())) => Poll::Ready(Ok(())),
            Ok(Err(e)) => Poll::Ready(Err(FeedError::Closed(e.into_inner()))),
            Err(fault) => Poll::Ready(Err(FeedError::Refused(fault))),
        }
    }
}

impl<'a, R: Wait, T: Drop> Sink<T> for Feeding<'a, R, T> {
    type Error = FeedError<T>;

    ghost can_send = { λ f. f.send.wait ≡ None };

    ghost is_flushed = { λ f. f.send.wait ≡ None };

    ghost is_closed = { λ f. f.send.wait ≡ None };

    ghost needs = { λ f s. s ≡ f.send.rung.id };

    fn poll_ready(&mut self, cx: &mut Context<'_>) -> Poll<Result<(), FeedError<T>>> {
        self.poll_empty(cx)
    }

    fn start_send(&mut self, item: T) -> Result<(), FeedError<T>> {
        // A wait is begun where there is no place: it alone needs a bell.
        if let Some(send) = offer(self.send.rt, self.sender, item)? {
            self.send.begin(send);
        }
        Ok(())
    }

    fn poll_flush(&mut self, cx: &mut Context<'_>) -> Poll<Result<(), FeedError<T>>> {
        self.poll_empty(cx)
    }

    fn poll_close(&mut self, cx: &mut Context<'_>) -> Poll<Result<(), FeedError<T>>> {
        self.poll_empty(cx)
    }
}
