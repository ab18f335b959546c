ghost use Rattle.std.specs.Prelude.{◌≡◌, ◌+◌, ◌-◌, ◌<◌, ◌≤◌, ◌^◌, ◌↔◌, [], ◌∷◌, length, Some, None, Ok, Err, false, true, IfOk, IfSome, IfNone, OnOk, OnErr, IsOk, IsErr, IsSome, IsTrue, is_some};
ghost use Rattle.mea_sem_core.specs.Acquire.{demand_of};
ghost use Rattle.mea_sem_core.specs.Calls.{Belongs, with_waker};
ghost use Rattle.mea_chan_core.specs.Channel.{Channel, no_senders};
ghost use Rattle.mea_chan_core.specs.Woken.{IsChannel};
ghost use Rattle.mea_chan_core.specs.Bounded.{send_answer, after_send, recv_answer, after_recv, without_receiver, without_sender, PollsRecv, Leaves, MayQueueAnew, StaysPending, PollsSend, EndsSend, IsOut, IsIn, number_of};

use crate::errors::{RecvError, SendError, TryRecvError, TrySendError};
use crate::moving::{move_waker, move_wakes, queue_new, take_queued};
use crate::send_wait::SendWait;
use mea_base::{NoMemory, Outbox, Overflow, Poll};
use mea_sem_core::{Acquire, SemCore};
use std::alloc::Global;
use std::collections::VecDeque;
use std::marker::Model;
use std::mem;

/// The core of a channel with room for a number of messages: many senders, one receiver.
///
/// A send that finds the channel full waits its turn on a semaphore without permits: each place that comes free
/// grants the first of them, who then polls again. Room for the waker of each that waits, and for the receiver's,
/// is reserved when it begins to wait. It ports `mea::mpsc::bounded` as pure state.
pub struct BoundedCore<T, W> {
    messages: VecDeque<T>,
    capacity: usize,
    senders: usize,
    ended: bool,
    // The receiver's, while it waits.
    waker: Option<W>,
    // The sends that wait.
    waiting: SemCore<W>,
    outbox: Outbox<W>,
}

impl<T, W> Model for BoundedCore<T, W> {
    ghost use Rattle.std.specs.Prelude.{◌≡◌, ◌+◌, ◌≤◌, ◌<◌, [], length, true, false, IsSome, option_to_list};
    ghost use Rattle.std.specs.VecDeque.{deque_capacity};
    ghost use Rattle.mea_chan_core.specs.Channel.{Channel, channel_code, IsSenders};

    ghost Value = { Channel T W };

    ghost coded = { channel_code T.code W.code };

    ghost view = { λ c. record {
      queued = c.messages.items;
      capacity = c.capacity;
      senders = c.senders;
      ended = c.ended;
      waker = c.waker;
      waiting = c.waiting;
      wakes = c.outbox.wakers;
    } };

    ghost invariant = { λ c. record {
      waiting : IsSenders c.waiting;
      room : length c.waiting.queue + length (option_to_list c.waker) ≤ c.outbox.spare;
      fits : length c.messages.items ≤ c.capacity;
      reserved : c.ended ≡ false → c.capacity ≤ deque_capacity c.messages;
      fallen : c.ended ≡ true → c.messages.items ≡ [];
      awake : IsSome c.waker → c.ended ≡ false → c.messages.items ≡ [];
      lives : IsSome c.waker → c.ended ≡ false → 0 < c.senders;
    } };
}

// Written out: a derived one is proved anew in each crate that hands a value of this type to a generic function.
impl<T: Drop, W: Drop> Drop for BoundedCore<T, W> {
    fn drop(self) {
        let BoundedCore {
            messages: _,
            capacity: _,
            senders: _,
            ended: _,
            waker: _,
            waiting: _,
            outbox: _,
        } = self;
    }
}

impl<T: Drop, W: Drop> BoundedCore<T, W> {
    /// A channel with room for `capacity` messages, all of it reserved now, and one sender.
    pub fn new(alloc: Global, capacity: usize) -> Result<Self, NoMemory>
        requires { 0 < capacity }
        ensures { IfOk result (λ c. c ≡ record { queued = []; capacity = capacity; senders = 1; ended = false; waker = None; waiting = no_senders; wakes = [] }) }
    {
        Self::at_senders(alloc, capacity, 1)
    }

    /// A channel as `new` makes it, with this many senders. The crate `mea` has no such call: it is here so that what
    /// happens at the greatest number of senders can be tried.
    pub fn at_senders(alloc: Global, capacity: usize, senders: usize) -> Result<Self, NoMemory>
        requires capacity { 0 < capacity }
        requires senders { 0 < senders }
        ensures { IfOk result (λ c. c ≡ record { queued = []; capacity = capacity; senders = senders; ended = false; waker = None; waiting = no_senders; wakes = [] }) }
    {
        Ok(BoundedCore {
            messages: VecDeque::with_capacity(alloc, capacity)?,
            capacity,
            senders,
            ended: false,
            waker: None,
            waiting: SemCore::new(alloc, 0),
            outbox: Outbox::new(alloc),
        })
    }

    /// How many senders live, which `add_sender` and `end_sender` ask of. It takes no memory.
    pub fn senders(&self) -> usize
        ensures { result ≡ self.now.senders }
    {
        self.senders
    }

    /// Whether the receiver has ended, which `end_receiver` asks of. It takes no memory.
    pub fn is_closed(&self) -> bool
        ensures { result ≡ self.now.ended }
    {
        self.ended
    }

    /// Whether the receiver's waker is kept, to be woken by a message or by the end of the last sender. It takes no memory.
    pub fn is_waiting(&self) -> bool
        ensures { result ≡ is_some self.now.waker }
    {
        self.waker.is_some()
    }

    /// How many sends wait in the queue; those that were granted a place have left it. It takes no memory.
    pub fn queue_len(&self) -> usize
        ensures count { result ≡ length self.now.waiting.queue }
        ensures channel { IsChannel self.now }
    {
        self.waiting.queue_len()
    }

    /// Sends a value past all sends that wait, if there is a place; else the value comes back. It takes no memory.
    pub fn try_send(&mut self, value: T) -> Result<(), TrySendError<T>>
        ensures answer { result ≡ send_answer self.old value }
        ensures after { self.new ≡ after_send self.old value }
    {
        if self.ended {
            return Err(TrySendError::Disconnected(value));
        }
        if self.messages.len() == self.capacity {
            return Err(TrySendError::Full(value));
        }
        self.messages.push_back_reserved(value);
        move_waker(&mut self.waker, &mut self.outbox);
        Ok(())
    }

    /// Polls a send: ready once the value was sent or handed back, else pending with the waker kept until the next
    /// poll. It takes memory only where the send goes to the tail of those that wait, and where there is none the
    /// waker comes back and nothing has changed.
    pub fn poll_send(
        &mut self,
        send: &mut SendWait<T>,
        waker: W,
    ) -> Result<Poll<Result<(), SendError<T>>>, (W, NoMemory)>
        requires { Belongs self.old.waiting send.old.acquire }
        ensures { PollsSend self.old send.old.value send.old.acquire waker result self.new send.new.value send.new.acquire }
    {
        let Some(value) = send.value.take() else {
            return Ok(Poll::Ready(Ok(())));
        };
        match self.try_send(value) {
            Ok(()) => {
                self.leave(send.take_acquire());
                Ok(Poll::Ready(Ok(())))
            }
            Err(TrySendError::Disconnected(value)) => {
                self.leave(send.take_acquire());
                Ok(Poll::Ready(Err(SendError(value))))
            }
            Err(TrySendError::Full(value)) => {
                send.value = Some(value);
                match self.stay(&mut send.acquire, waker) {
                    Ok(()) => Ok(Poll::Pending),
                    Err(failed) => Err(failed),
                }
            }
        }
    }

    /// Whether the send is one of this channel, which `poll_send` asks for. It takes no memory.
    pub fn poll_send_allowed(&self, send: &SendWait<T>) -> bool
        ensures { IsTrue result ↔ Belongs self.now.waiting send.now.acquire }
    {
        self.waiting.poll_allowed(&send.acquire)
    }

    /// Ends a send, and hands its value back where it was neither sent nor handed back before. A place that it was
    /// granted goes to the next that waits. It takes no memory.
    pub fn end_send(&mut self, send: SendWait<T>) -> Option<T>
        requires { Belongs self.old.waiting send.acquire }
        ensures ends { EndsSend self.old send.acquire self.new }
        ensures value { result ≡ send.value }
    {
        let SendWait { value, acquire, .. } = send;
        self.waiting.cancel(acquire);
        move_wakes(&mut self.waiting, &mut self.outbox);
        value
    }

    /// Takes the first message, if there is one; the first send that waits is then granted its place. It takes no
    /// memory.
    pub fn try_recv(&mut self) -> Result<T, TryRecvError>
        ensures answer { result ≡ recv_answer self.old }
        ensures after { self.new ≡ after_recv self.old }
    {
        match self.messages.pop_front() {
            Some(value) => {
                self.waiting.release_if_waiting(1);
                move_wakes(&mut self.waiting, &mut self.outbox);
                Ok(value)
            }
            None if self.ended || self.senders == 0 => Err(TryRecvError::Disconnected),
            None => Err(TryRecvError::Empty),
        }
    }

    /// Polls a receive: ready as `try_recv`, or pending with the waker in the place of the one before. It takes memory
    /// only where it is pending, and where there is none the waker comes back and nothing has changed.
    pub fn poll_recv(&mut self, waker: W) -> Result<Poll<Result<T, RecvError>>, (W, NoMemory)>
        ensures polls { PollsRecv self.old waker (recv_answer self.old) result self.new }
        ensures replaces { IsSome self.old.waker → IsOk result }
    {
        match self.try_recv() {
            Ok(value) => Ok(Poll::Ready(Ok(value))),
            Err(TryRecvError::Disconnected) => Ok(Poll::Ready(Err(RecvError::Disconnected))),
            Err(TryRecvError::Empty) => {
                if self.outbox.reserve(self.waiting.queue_len() + 1).is_err() {
                    return Err((waker, NoMemory));
                }
                self.waker = Some(waker);
                Ok(Poll::Pending)
            }
        }
    }

    /// One sender more, where one lives; refused at the greatest number. It takes no memory.
    pub fn add_sender(&mut self) -> Result<(), Overflow>
        requires { 0 < self.old.senders }
        ensures overflow { IsErr result ↔ (self.old.senders ≡ usize.MAX) }
        ensures ok { OnOk result (self.new ≡ record self.old { senders = self.old.senders + 1 }) }
        ensures err { OnErr result (self.new ≡ self.old) }
    {
        self.senders = self.senders.checked_add(1).ok_or(Overflow)?;
        Ok(())
    }

    /// One sender less; at the last one the receiver is woken. It takes no memory.
    pub fn end_sender(&mut self)
        requires { 0 < self.old.senders }
        ensures { self.new ≡ without_sender self.old }
    {
        self.senders -= 1;
        if self.senders == 0 {
            move_waker(&mut self.waker, &mut self.outbox);
        }
    }

    /// Ends the receiver: the queued messages fall, and all sends that wait are granted and woken. The receiver's own
    /// waker stays. It takes no memory.
    pub fn end_receiver(&mut self)
        requires { self.old.ended ≡ false }
        ensures { self.new ≡ without_receiver self.old }
    {
        drop(self.close());
    }

    // The same, with the queued messages handed out.
    pub(crate) fn close(&mut self) -> VecDeque<T>
        requires { self.old.ended ≡ false }
        ensures is { self.new ≡ without_receiver self.old }
        ensures queued { result.items ≡ self.old.queued }
    {
        self.ended = true;
        self.waiting.wake_queue();
        move_wakes(&mut self.waiting, &mut self.outbox);
        take_queued(&mut self.messages)
    }

    /// How many wakers are to be called. It takes no memory.
    pub fn wakes_ready(&self) -> usize
        ensures is { result ≡ length self.now.wakes }
        ensures bound { result < 2 ^ 63 }
    {
        self.outbox.len()
    }

    /// Takes the first waker that is to be called. It takes no memory.
    pub fn next_wake(&mut self) -> Option<W>
        ensures some { IfSome result (λ waker. self.old ≡ record self.new { wakes = waker ∷ self.new.wakes }) }
        ensures none { IfNone result ((self.old.wakes ≡ []) × (self.new ≡ self.old)) }
    {
        self.outbox.pop()
    }

    // Ends the acquire of a send that has its answer.
    fn leave(&mut self, acquire: Acquire)
        requires belongs { Belongs self.old.waiting acquire }
        requires one { demand_of acquire ≡ 1 }
        ensures { Leaves self.old acquire self.new }
    {
        self.waiting.lose_acquire(acquire);
    }

    // A poll of a send that finds the channel full.
    fn stay(&mut self, acquire: &mut Acquire, waker: W) -> Result<(), (W, NoMemory)>
        requires belongs { Belongs self.old.waiting acquire.old }
        requires one { demand_of acquire.old ≡ 1 }
        ensures stays { StaysPending self.old acquire.old waker result self.new acquire.new }
        ensures one { demand_of acquire.new ≡ 1 }
    {
        if self.is_in_queue(acquire) {
            self.replace_waker(acquire, waker);
            return Ok(());
        }
        self.queue_anew(acquire, waker)
    }

    // Whether the acquire is in the queue.
    fn is_in_queue(&self, acquire: &Acquire) -> bool
        requires { Belongs self.now.waiting acquire.now }
        ensures waits { result ≡ true → IsIn self.now.waiting acquire.now }
        ensures out { result ≡ false → IsOut self.now.waiting acquire.now }
    {
        let Acquire::Queued { .. } = acquire else {
            return false;
        };
        !self.waiting.is_granted(acquire)
    }

    // Gives an acquire that waits another waker.
    fn replace_waker(&mut self, acquire: &mut Acquire, waker: W)
        requires { IsIn self.old.waiting acquire.old }
        ensures is { self.new ≡ record self.old { waiting = record self.old.waiting { queue = with_waker self.old.waiting.queue (number_of acquire.old) waker } } }
        ensures same { acquire.new ≡ acquire.old }
    {
        let _ = self.waiting.poll(acquire, waker);
    }

    // Puts the acquire at the tail of those that wait.
    fn queue_anew(&mut self, acquire: &mut Acquire, waker: W) -> Result<(), (W, NoMemory)>
        requires out { IsOut self.old.waiting acquire.old }
        requires one { demand_of acquire.old ≡ 1 }
        ensures queues { MayQueueAnew self.old acquire.old waker result self.new acquire.new }
        ensures one { demand_of acquire.new ≡ 1 }
    {
        let Some(wanted) = self.waiting.queue_len().checked_add(2) else {
            return Err((waker, NoMemory));
        };
        let kept = self.waiting.live() - self.waiting.available_permits();
        if wanted >= usize::MAX - kept || self.outbox.reserve(wanted).is_err() {
            return Err((waker, NoMemory));
        }
        match queue_new(&mut self.waiting, waker) {
            Ok(anew) => {
                let old = mem::replace(acquire, anew);
                self.waiting.lose_acquire(old);
                Ok(())
            }
            Err(failed) => Err(failed),
        }
    }
}
