ghost use Rattle.std.specs.Prelude.{◌≡◌, ◌+◌, ◌<◌, ◌^◌, ◌↔◌, [], ◌∷◌, length, Some, None, Ok, Err, false, true, IfSome, IfNone, OnOk, OnErr, IsOk, IsErr, IsSome, MatchResult, is_some};
ghost use Rattle.mea_chan_core.specs.Mailbox.{Mailbox, with_message, recv_answer, after_recv, PollsRecv, without_receiver, without_sender};

use crate::errors::{RecvError, TryRecvError, UnboundedError};
use crate::moving::{move_waker, take_queued};
use mea_base::{NoMemory, Outbox, Overflow, Poll};
use std::alloc::Global;
use std::collections::VecDeque;
use std::marker::Model;

/// The core of a channel that never is full: many senders, one receiver.
///
/// Room for the receiver's waker is reserved when it begins to wait. It ports `mea::mpsc::unbounded` as pure state; a
/// send may answer want of memory where the crate aborts.
pub struct UnboundedCore<T, W> {
    messages: VecDeque<T>,
    senders: usize,
    ended: bool,
    // The receiver's, while it waits.
    waker: Option<W>,
    outbox: Outbox<W>,
}

impl<T, W> Model for UnboundedCore<T, W> {
    ghost use Rattle.std.specs.Prelude.{◌≡◌, ◌≤◌, ◌<◌, [], length, true, false, IsSome, option_to_list};
    ghost use Rattle.mea_chan_core.specs.Mailbox.{Mailbox};

    ghost Value = { Mailbox T W };

    ghost view = { λ m. record { queued = m.messages.items; senders = m.senders; ended = m.ended; waker = m.waker; wakes = m.outbox.wakers } };

    ghost invariant = { λ m. record {
      room : length (option_to_list m.waker) ≤ m.outbox.spare;
      fallen : m.ended ≡ true → m.messages.items ≡ [];
      awake : IsSome m.waker → m.ended ≡ false → m.messages.items ≡ [];
      lives : IsSome m.waker → m.ended ≡ false → 0 < m.senders;
    } };
}

// Written out: a derived one is proved anew in each crate that hands a value of this type to a generic function.
impl<T: Drop, W: Drop> Drop for UnboundedCore<T, W> {
    fn drop(self) {
        let UnboundedCore {
            messages: _,
            senders: _,
            ended: _,
            waker: _,
            outbox: _,
        } = self;
    }
}

impl<T: Drop, W: Drop> UnboundedCore<T, W> {
    /// A channel with one sender. It takes no memory.
    pub fn new(alloc: Global) -> Self
        ensures { result ≡ record { queued = []; senders = 1; ended = false; waker = None; wakes = [] } }
    {
        Self::at_senders(alloc, 1)
    }

    /// A channel with this many senders. It takes no memory. The crate `mea` has no such call: it is here so that what
    /// happens at the greatest number of senders can be tried.
    pub fn at_senders(alloc: Global, senders: usize) -> Self
        requires { 0 < senders }
        ensures { result ≡ record { queued = []; senders = senders; ended = false; waker = None; wakes = [] } }
    {
        UnboundedCore {
            messages: VecDeque::new(alloc),
            senders,
            ended: false,
            waker: None,
            outbox: Outbox::new(alloc),
        }
    }

    /// How many senders live, which `add_sender` and `end_sender` ask of. It takes no memory.
    pub fn senders(&self) -> usize
        ensures { result ≡ self.now.senders }
    {
        self.senders
    }

    /// Whether the receiver has ended, which `end_receiver` asks of. It takes no memory.
    pub fn is_closed(&self) -> bool
        ensures { result ≡ self.now.ended }
    {
        self.ended
    }

    /// Whether the receiver's waker is kept, to be woken by a message or by the end of the last sender. It takes no memory.
    pub fn is_waiting(&self) -> bool
        ensures { result ≡ is_some self.now.waker }
    {
        self.waker.is_some()
    }

    /// Sends a value; where the receiver has ended, or there is no memory for it, it comes back.
    pub fn send(&mut self, value: T) -> Result<(), UnboundedError<T>>
        ensures closed { self.old.ended ≡ true → result ≡ Err (UnboundedError.Closed value) }
        ensures sent { self.old.ended ≡ false → MatchResult result (λ _. self.new ≡ with_message self.old value) (λ e. e ≡ UnboundedError.NoMemory value) }
        ensures err { OnErr result (self.new ≡ self.old) }
    {
        if self.ended {
            return Err(UnboundedError::Closed(value));
        }
        if self.messages.reserve(1).is_err() {
            return Err(UnboundedError::NoMemory(value));
        }
        self.messages.push_back_reserved(value);
        move_waker(&mut self.waker, &mut self.outbox);
        Ok(())
    }

    /// Takes the first message, if there is one. It takes no memory.
    pub fn try_recv(&mut self) -> Result<T, TryRecvError>
        ensures answer { result ≡ recv_answer self.old }
        ensures after { self.new ≡ after_recv self.old }
    {
        match self.messages.pop_front() {
            Some(value) => Ok(value),
            None if self.ended || self.senders == 0 => Err(TryRecvError::Disconnected),
            None => Err(TryRecvError::Empty),
        }
    }

    /// Polls a receive: ready as `try_recv`, or pending with the waker in the place of the one before. It takes memory
    /// only where it is pending, and where there is none the waker comes back and nothing has changed.
    pub fn poll_recv(&mut self, waker: W) -> Result<Poll<Result<T, RecvError>>, (W, NoMemory)>
        ensures polls { PollsRecv self.old waker (recv_answer self.old) result self.new }
        ensures replaces { IsSome self.old.waker → IsOk result }
    {
        match self.try_recv() {
            Ok(value) => Ok(Poll::Ready(Ok(value))),
            Err(TryRecvError::Disconnected) => Ok(Poll::Ready(Err(RecvError::Disconnected))),
            Err(TryRecvError::Empty) if self.outbox.reserve(1).is_err() => Err((waker, NoMemory)),
            Err(TryRecvError::Empty) => {
                self.waker = Some(waker);
                Ok(Poll::Pending)
            }
        }
    }

    /// One sender more, where one lives; refused at the greatest number. It takes no memory.
    pub fn add_sender(&mut self) -> Result<(), Overflow>
        requires { 0 < self.old.senders }
        ensures overflow { IsErr result ↔ (self.old.senders ≡ usize.MAX) }
        ensures ok { OnOk result (self.new ≡ record self.old { senders = self.old.senders + 1 }) }
        ensures err { OnErr result (self.new ≡ self.old) }
    {
        self.senders = self.senders.checked_add(1).ok_or(Overflow)?;
        Ok(())
    }

    /// One sender less; at the last one the receiver is woken. It takes no memory.
    pub fn end_sender(&mut self)
        requires { 0 < self.old.senders }
        ensures { self.new ≡ without_sender self.old }
    {
        self.senders -= 1;
        if self.senders == 0 {
            move_waker(&mut self.waker, &mut self.outbox);
        }
    }

    /// Ends the receiver: the queued messages fall. The receiver's own waker stays. It takes no memory.
    pub fn end_receiver(&mut self)
        requires { self.old.ended ≡ false }
        ensures { self.new ≡ without_receiver self.old }
    {
        drop(self.close());
    }

    // The same, with the queued messages handed out.
    pub(crate) fn close(&mut self) -> VecDeque<T>
        requires { self.old.ended ≡ false }
        ensures is { self.new ≡ without_receiver self.old }
        ensures queued { result.items ≡ self.old.queued }
    {
        self.ended = true;
        take_queued(&mut self.messages)
    }

    /// How many wakers are to be called. It takes no memory.
    pub fn wakes_ready(&self) -> usize
        ensures is { result ≡ length self.now.wakes }
        ensures bound { result < 2 ^ 63 }
    {
        self.outbox.len()
    }

    /// Takes the first waker that is to be called. It takes no memory.
    pub fn next_wake(&mut self) -> Option<W>
        ensures some { IfSome result (λ waker. self.old ≡ record self.new { wakes = waker ∷ self.new.wakes }) }
        ensures none { IfNone result ((self.old.wakes ≡ []) × (self.new ≡ self.old)) }
    {
        self.outbox.pop()
    }
}
