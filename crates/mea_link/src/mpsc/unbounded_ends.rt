ghost use Rattle.std.specs.Prelude.{◌≡◌, ◌-◌, ◌<◌, length, true, false, Err, IfErr, OnErr, MatchResult};
ghost use Rattle.mea_chan_core.specs.Mailbox.{with_message, recv_answer, PollsRecv, without_sender, without_receiver};
ghost use Rattle.mea_chan_core.specs.Errors.{unqueued};
ghost use Rattle.mea_chan_core.specs.declared.errors.UnboundedError.{UnboundedError};

use crate::mpsc::{RecvError, TryRecvError, UnboundedError};
use mea_base::{NoMemory, Poll, Wake};
use mea_chan_core::UnboundedCore;
use mea_wait::{End, HandleFault, Polled, Unpolled, Waits, hand_out};
use std::alloc::Global;
use std::sync::{Arc, Mutex, Wait};

// What the ends of a channel share.
struct Shared<T, W> {
    core: Mutex<UnboundedCore<T, W>>,
}

// Written out: a derived one is proved anew in each crate that hands a value of this type to a generic function.
impl<T: Drop, W: Drop> Drop for Shared<T, W> {
    fn drop(self) {
        let Shared { core: _ } = self;
    }
}

/// An end that sends. It must be ended. It ports `mea::mpsc::UnboundedSender`.
pub struct UnboundedSender<T, W> {
    shared: Arc<Shared<T, W>>,
}

/// The end that receives. It must be ended. It ports `mea::mpsc::UnboundedReceiver`.
pub struct UnboundedReceiver<T, W> {
    shared: Arc<Shared<T, W>>,
}

/// The future of `UnboundedReceiver::recv`. It must be polled to its end, or ended; ended, it has received nothing,
/// and its waker stays with the receiver.
pub struct UnboundedRecv<'a, T, W> {
    of: &'a Shared<T, W>,
}

/// A channel that keeps any number of messages. It takes the memory that both ends share.
pub fn unbounded<T: Drop, W: Wake>(
    alloc: Global,
) -> Result<(UnboundedSender<T, W>, UnboundedReceiver<T, W>), NoMemory> {
    let core = Mutex::new(UnboundedCore::new(alloc));
    let shared = Arc::new(alloc, Shared { core })?;
    let other = Arc::try_clone(&shared)?;
    Ok((
        UnboundedSender { shared },
        UnboundedReceiver { shared: other },
    ))
}

// Sends, in one step under the lock. It tells how many wakers that made ready.
fn send<T: Drop, W: Drop>(
    core: &mut UnboundedCore<T, W>,
    value: T,
) -> (Result<(), UnboundedError<T>>, usize)
    ensures closed { core.old.ended ≡ true → result.0 ≡ Err (UnboundedError.Closed value) }
    ensures sent { core.old.ended ≡ false → MatchResult result.0 (λ _. core.new ≡ with_message core.old value) (λ e. e ≡ UnboundedError.NoMemory value) }
    ensures err { OnErr result.0 (core.new ≡ core.old) }
    ensures made { result.1 ≡ length core.new.wakes - length core.old.wakes }
{
    let before = core.wakes_ready();
    let answer = core.send(value);
    (answer, core.wakes_ready().saturating_sub(before))
}

// A sender ends, as above.
fn end_sender<T: Drop, W: Drop>(core: &mut UnboundedCore<T, W>) -> usize
    ensures allowed { 0 < core.old.senders → core.new ≡ without_sender core.old }
    ensures none { core.old.senders ≡ 0 → core.new ≡ core.old }
    ensures made { result ≡ length core.new.wakes - length core.old.wakes }
{
    let before = core.wakes_ready();
    core.end_sender_checked();
    core.wakes_ready().saturating_sub(before)
}

impl<T: Drop, W: Wake> Shared<T, W> {
    // Wakes as many as the step before has made ready.
    fn wake<R: Wait>(&self, rt: &R, made: usize) {
        hand_out(made, || self.core.lock(rt).next_wake());
    }
}

impl<T: Drop, W: Wake> UnboundedSender<T, W> {
    /// Sends the value. Where the receiver has ended, or there is no memory for it, it comes back.
    pub fn send<R: Wait>(&self, rt: &R, value: T) -> Result<(), UnboundedError<T>>
        ensures { IfErr result (λ e. unqueued e ≡ value) }
    {
        let (answer, made) = send(&mut *self.shared.core.lock(rt), value);
        self.shared.wake(rt, made);
        answer
    }

    /// A further sender. It is refused at the greatest number, and where no further share can be had; then nothing has
    /// changed.
    pub fn clone_handle<R: Wait>(&self, rt: &R) -> Result<Self, HandleFault> {
        let shared = Arc::try_clone(&self.shared)?;
        let added = shared.core.lock(rt).add_sender_checked();
        added?;
        Ok(UnboundedSender { shared })
    }
}

impl<T: Drop, W: Wake> UnboundedReceiver<T, W> {
    /// Takes the first message, if there is one. It takes no memory.
    pub fn try_recv<R: Wait>(&mut self, rt: &R) -> Result<T, TryRecvError> {
        self.shared.core.lock(rt).try_recv()
    }

    /// A wait for the first message. It takes no memory before its first poll.
    pub fn recv(&mut self) -> UnboundedRecv<'_, T, W> {
        UnboundedRecv { of: &*self.shared }
    }
}

impl<T: Drop, W: Wake> End for UnboundedSender<T, W> {
    fn end<R: Wait>(self, rt: &R) {
        let UnboundedSender { shared } = self;
        let made = end_sender(&mut *shared.core.lock(rt));
        shared.wake(rt, made);
    }
}

impl<T: Drop, W: Wake> End for UnboundedReceiver<T, W> {
    fn end<R: Wait>(self, rt: &R) {
        let UnboundedReceiver { shared } = self;
        let queued = shared.core.lock(rt).end_receiver_checked();
        // Dropped outside the lock, which a message's own drop may take.
        drop(queued);
    }
}

impl<'a, T: Drop, W: Wake> End for UnboundedRecv<'a, T, W> {
    fn end<R: Wait>(self, _rt: &R) {
        let UnboundedRecv { of: _ } = self;
    }
}

impl<'a, T: Drop, W: Wake> Waits<W, Result<T, RecvError>> for UnboundedRecv<'a, T, W> {
    fn poll<R: Wait>(
        self,
        rt: &R,
        waker: W,
    ) -> Result<Polled<Self, Result<T, RecvError>>, Unpolled<Self, W>> {
        let UnboundedRecv { of } = self;
        let answer = of.core.lock(rt).poll_recv(waker);
        match answer {
            Ok(Poll::Ready(got)) => Ok(Polled::Ready(got)),
            Ok(Poll::Pending) => Ok(Polled::Pending(UnboundedRecv { of })),
            Err((waker, NoMemory)) => Err(Unpolled::no_memory(UnboundedRecv { of }, waker)),
        }
    }
}
