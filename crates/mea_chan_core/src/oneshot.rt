ghost use Rattle.std.specs.Prelude.{◌≡◌, ◌≢◌, ◌<◌, ◌^◌, ◌∷◌, [], None, Some, true, false, IfSome, IfNone, is_some, if◌then◌else◌};
ghost use Rattle.mea_chan_core.specs.Oneshot.{Oneshot, fresh, send_answer, after_send, without_sender, recv_answer, after_recv, poll_answer, after_poll, without_receiver};

use crate::errors::{RecvError, SendError, TryRecvError};
use mea_base::Poll;
use std::marker::Model;

/// The core of a channel for one message: one sender, one receiver.
///
/// It wakes at most once in its life, and no call takes memory. It ports `mea::oneshot` as pure state; the crate keeps
/// the same states in one atomic word.
pub struct OneshotCore<T, W> {
    message: Option<T>,
    // Whether the sender has neither sent nor ended.
    sender: bool,
    receiver: bool,
    // The receiver's, while it waits.
    waker: Option<W>,
    ready: Option<W>,
}

impl<T, W> Model for OneshotCore<T, W> {
    ghost use Rattle.std.specs.Prelude.{◌≡◌, None, true, false, IsSome};
    ghost use Rattle.mea_chan_core.specs.Oneshot.{Oneshot};

    ghost Value = { Oneshot T W };

    ghost view = { λ o. record { message = o.message; sender = o.sender; receiver = o.receiver; waker = o.waker; ready = o.ready } };

    ghost invariant = { λ o. record {
      sent : o.sender ≡ true → o.message ≡ None;
      fallen : o.receiver ≡ false → o.message ≡ None;
      awake : IsSome o.waker → o.sender ≡ true;
      once : o.sender ≡ true → o.ready ≡ None;
    } };
}

// Written out: a derived one is proved anew in each crate that hands a value of this type to a generic function.
impl<T: Drop, W: Drop> Drop for OneshotCore<T, W> {
    fn drop(self) {
        let OneshotCore {
            message: _,
            sender: _,
            receiver: _,
            waker: _,
            ready: _,
        } = self;
    }
}

impl<T: Drop, W: Drop> OneshotCore<T, W> {
    /// A channel on which nothing was sent. It takes no memory.
    pub fn new() -> Self
        ensures { result ≡ fresh }
    {
        OneshotCore {
            message: None,
            sender: true,
            receiver: true,
            waker: None,
            ready: None,
        }
    }

    /// Sends the message. It comes back where the receiver has ended, or the sender has sent or ended. It takes no
    /// memory.
    pub fn send(&mut self, message: T) -> Result<(), SendError<T>>
        ensures answer { result ≡ send_answer self.old message }
        ensures after { self.new ≡ after_send self.old message }
        ensures first { self.old.sender ≡ true → self.old.message ≡ None }
    {
        if !self.receiver || !self.sender {
            return Err(SendError(message));
        }
        self.end_sender();
        self.message = Some(message);
        Ok(())
    }

    /// Ends the sender without a message; the receiver is woken. It takes no memory.
    pub fn end_sender(&mut self)
        requires { self.old.sender ≡ true }
        ensures { self.new ≡ without_sender self.old }
    {
        self.sender = false;
        self.ready = self.waker.take();
    }

    /// Whether the sender has neither sent nor ended, which `end_sender` asks. It takes no memory.
    pub fn end_sender_allowed(&self) -> bool
        ensures { result ≡ self.now.sender }
    {
        self.sender
    }

    /// Whether the receiver has ended, so that a send would be refused. It takes no memory.
    pub fn is_closed(&self) -> bool
        ensures { result ≡ (if self.now.receiver then false else true) }
    {
        !self.receiver
    }

    /// Whether the receiver's waker is kept, to be woken by the message or by the end of the sender. It takes no memory.
    pub fn is_waiting(&self) -> bool
        ensures { result ≡ is_some self.now.waker }
    {
        self.waker.is_some()
    }

    /// Whether a message is there to be received. It takes no memory.
    pub fn has_message(&self) -> bool
        ensures { result ≡ is_some self.now.message }
    {
        self.message.is_some()
    }

    /// Whether no message will be received any more, though the receiver lives: the sender ended without one, or it was
    /// taken. It takes no memory.
    pub fn is_disconnected(&self) -> bool
        ensures { result ≡ (if self.now.sender then false else if is_some self.now.message then false else true) }
    {
        !self.sender && self.message.is_none()
    }

    /// Takes the message, if it is there. It takes no memory.
    pub fn try_recv(&mut self) -> Result<T, TryRecvError>
        ensures answer { result ≡ recv_answer self.old }
        ensures after { self.new ≡ after_recv self.old }
    {
        match self.message.take() {
            Some(message) => Ok(message),
            None if self.receiver && self.sender => Err(TryRecvError::Empty),
            None => Err(TryRecvError::Disconnected),
        }
    }

    /// Polls a receive: ready as `try_recv`, or pending with the waker in the place of the one before. It takes no
    /// memory.
    pub fn poll_recv(&mut self, waker: W) -> Poll<Result<T, RecvError>>
        ensures answer { result ≡ poll_answer (recv_answer self.old) }
        ensures after { self.new ≡ after_poll self.old waker (recv_answer self.old) }
    {
        match self.try_recv() {
            Ok(message) => Poll::Ready(Ok(message)),
            Err(TryRecvError::Disconnected) => Poll::Ready(Err(RecvError::Disconnected)),
            Err(TryRecvError::Empty) => {
                self.waker = Some(waker);
                Poll::Pending
            }
        }
    }

    /// Ends the receiver: its waker and a message that is there fall. It takes no memory.
    pub fn end_receiver(&mut self)
        requires { self.old.receiver ≡ true }
        ensures { self.new ≡ without_receiver self.old }
    {
        self.receiver = false;
        self.message = None;
        self.waker = None;
    }

    /// Whether the receiver lives, which `end_receiver` asks. It takes no memory.
    pub fn end_receiver_allowed(&self) -> bool
        ensures { result ≡ self.now.receiver }
    {
        self.receiver
    }

    /// How many wakers are to be called: one or none. It takes no memory.
    pub fn wakes_ready(&self) -> usize
        ensures is { result ≡ (if is_some self.now.ready then 1 else 0) }
        ensures bound { result < 2 ^ 63 }
    {
        if self.ready.is_some() { 1 } else { 0 }
    }

    /// Takes the waker that is to be called, if there is one. It takes no memory.
    pub fn next_wake(&mut self) -> Option<W>
        ensures taken { result ≡ self.old.ready }
        ensures after { self.new ≡ record self.old { ready = None } }
    {
        self.ready.take()
    }
}
