ghost use Rattle.std.specs.Prelude.{◌≡◌, ◌+◌, ◌-◌, ◌<◌, ◌≤◌, ◌^◌, ◌↔◌, [], ◌∷◌, length, true, Err, IsTrue, IsOk, IsErr, IfOk, IfErr, IfSome, IfNone, OnOk, OnErr};
ghost use Rattle.std.specs.Int.{IsNextPowerOfTwo};
ghost use Rattle.mea_sets.specs.WaitSet.{has_given, is_registered, with_waker, slot_after};
ghost use Rattle.mea_broadcast_core.specs.Broadcast.{Broadcast, IsFresh, after_send, without_sender};
ghost use Rattle.mea_broadcast_core.specs.Receives.{AtTail, found, Receives, PollsRecv};

use crate::cursor::Cursor;
use crate::errors::{BroadcastFault, BroadcastRecv, BroadcastTry, SendRefused};
use crate::recv_wait::RecvWait;
use circular_buffer::HeapCircularBuffer;
use mea_base::{NoMemory, Outbox, Overflow, Poll};
use mea_sets::WaitSet;
use std::alloc::Global;
use std::marker::Model;

/// The core of a broadcast channel: a ring of the last messages, how many were ever sent, how many senders live, and
/// the wakers of receives that wait.
///
/// Room for a waker is reserved when it is registered, so that a send takes no memory. It ports
/// `mea::broadcast::overflow` as pure state.
pub struct BroadcastCore<T, W> {
    ring: HeapCircularBuffer<T>,
    tail: u64,
    senders: usize,
    waiting: WaitSet<W>,
    outbox: Outbox<W>,
}

impl<T, W> Model for BroadcastCore<T, W> {
    ghost use Rattle.std.specs.Prelude.{◌≤◌, ◌+◌, ◌<◌, length};
    ghost use Rattle.mea_broadcast_core.specs.Broadcast.{Broadcast, broadcast_code};

    ghost Value = { Broadcast T W };

    ghost coded = { broadcast_code T.code W.code };

    ghost view = { λ b. record {
      kept = b.ring.items;
      tail = b.tail;
      size = b.ring.capacity;
      senders = b.senders;
      waiting = b.waiting;
      wakes = b.outbox.wakers;
    } };

    ghost invariant = { λ b. record {
      counted : length b.ring.items ≤ b.tail;
      within : length b.ring.items ≤ b.ring.capacity;
      room : length b.waiting.wakers ≤ b.outbox.spare;
      drains : b.waiting.drains ≤ b.tail + 1;
      drains_of_sends : 0 < b.senders → b.waiting.drains ≤ b.tail;
    } };
}

// Written out: a derived one is proved anew in each crate that hands a value of this type to a generic function.
impl<T: Drop, W: Drop> Drop for BroadcastCore<T, W> {
    fn drop(self) {
        let BroadcastCore {
            ring: _,
            tail: _,
            senders: _,
            waiting: _,
            outbox: _,
        } = self;
    }
}

impl<T: Clone, W: Drop> BroadcastCore<T, W> {
    /// A channel with one sender and no message, whose ring has the least power of two that is at least `capacity`.
    /// Overflow comes where that power passes the greatest number.
    pub fn new(alloc: Global, capacity: usize) -> Result<Self, BroadcastFault>
        requires { 0 < capacity }
        ensures made { IfOk result (λ b. IsFresh b 0 × IsNextPowerOfTwo capacity b.size) }
        ensures overflow { (result ≡ Err BroadcastFault.Overflow) ↔ (2 ^ 63 < capacity) }
    {
        Self::at_tail(alloc, capacity, 0)
    }

    /// A channel as of `new`, of whose messages this many were sent and are kept no more. The crate `mea` has no such
    /// call: it is here so that what happens at the last position can be tried.
    pub fn at_tail(alloc: Global, capacity: usize, tail: u64) -> Result<Self, BroadcastFault>
        requires { 0 < capacity }
        ensures made { IfOk result (λ b. IsFresh b tail × IsNextPowerOfTwo capacity b.size) }
        ensures overflow { (result ≡ Err BroadcastFault.Overflow) ↔ (2 ^ 63 < capacity) }
    {
        if capacity > usize::MAX / 2 + 1 {
            return Err(BroadcastFault::Overflow);
        }
        let size = capacity.next_power_of_two();
        match HeapCircularBuffer::with_capacity(alloc, size) {
            Ok(ring) => Ok(BroadcastCore {
                ring,
                tail,
                senders: 1,
                waiting: WaitSet::new(alloc),
                outbox: Outbox::new(alloc),
            }),
            Err(_) => Err(BroadcastFault::NoMemory),
        }
    }

    /// How many messages were ever sent: the position of the next one. It takes no memory.
    pub fn tail(&self) -> u64
        ensures { result ≡ self.now.tail }
    {
        self.tail
    }

    /// How many senders live, which `add_sender` and `end_sender` ask of. It takes no memory.
    pub fn senders(&self) -> usize
        ensures { result ≡ self.now.senders }
    {
        self.senders
    }

    /// Sends a message to all receivers: the ring keeps it in place of the oldest where it is full, and all registered
    /// wakers are woken, in the order of their registration. Refused where the last position is taken. It takes no
    /// memory.
    pub fn send(&mut self, message: T) -> Result<(), SendRefused<T>>
        ensures refused { IsErr result ↔ (self.old.tail ≡ u64.MAX) }
        ensures ok { OnOk result (self.new ≡ after_send self.old message) }
        ensures err { IfErr result (λ e. (e.0 ≡ message) × (self.new ≡ self.old)) }
    {
        if self.tail == u64::MAX {
            return Err(SendRefused(message));
        }
        self.tail += 1;
        let _ = self.ring.push_back(message);
        self.waiting.drain_into(&mut self.outbox);
        Ok(())
    }

    /// A receiver of what is sent from now on. It takes no memory.
    pub fn subscribe(&self) -> Cursor
        ensures { result.position ≡ self.now.tail }
    {
        Cursor {
            position: self.tail,
        }
    }

    /// A receiver that has passed the same messages. It takes no memory.
    pub fn copy(&self, cursor: &Cursor) -> Cursor
        requires { cursor.now.position ≤ self.now.tail }
        ensures { result.position ≡ cursor.now.position }
    {
        Cursor {
            position: cursor.position,
        }
    }

    /// Receives a clone of the message at the cursor, which goes on by one. Where the message is kept no more, the
    /// cursor goes to the oldest that is, and how far is told. Where no memory is found for the clone, the cursor
    /// stays.
    pub fn try_recv(&self, cursor: &mut Cursor) -> Result<T, BroadcastTry>
        requires { cursor.old.position ≤ self.now.tail }
        ensures { Receives T.is_clone T.is_infallible self.now (found self.now cursor.old.position) cursor.old.position
            result cursor.new.position }
    {
        let oldest = self.tail - self.ring.len() as u64;
        if cursor.position < oldest {
            let missed = oldest - cursor.position;
            cursor.position = oldest;
            return Err(BroadcastTry::Lagged(missed));
        }
        let Some(message) = self.ring.get((cursor.position - oldest) as usize) else {
            if self.senders == 0 {
                return Err(BroadcastTry::Disconnected);
            }
            return Err(BroadcastTry::Empty);
        };
        match message.clone() {
            Ok(copy) => {
                cursor.position += 1;
                Ok(copy)
            }
            Err(_) => Err(BroadcastTry::NoMemory),
        }
    }

    /// Polls a receive: ready as `try_recv`; where that is empty the waker is registered, in place of this wait's
    /// earlier one if that is registered. Where no memory is found for a clone or a further waker, the waker comes back
    /// and nothing has changed.
    pub fn poll_recv(
        &mut self,
        cursor: &mut Cursor,
        wait: &mut RecvWait,
        waker: W,
    ) -> Result<Poll<Result<T, BroadcastRecv>>, (W, NoMemory)>
        requires cursor { cursor.old.position ≤ self.old.tail }
        requires wait { has_given self.old.waiting wait.old ≡ true }
        ensures polls { PollsRecv T.is_clone T.is_infallible self.old (found self.old cursor.old.position) cursor.old.position
            wait.old waker result self.new cursor.new.position wait.new }
        ensures replaces { found self.old cursor.old.position ≡ AtTail
            → is_registered self.old.waiting wait.old ≡ true → IsOk result }
    {
        match self.try_recv(cursor) {
            Ok(message) => Ok(Poll::Ready(Ok(message))),
            Err(BroadcastTry::Lagged(missed)) => {
                Ok(Poll::Ready(Err(BroadcastRecv::Lagged(missed))))
            }
            Err(BroadcastTry::Disconnected) => Ok(Poll::Ready(Err(BroadcastRecv::Disconnected))),
            Err(BroadcastTry::NoMemory) => Err((waker, NoMemory)),
            Err(BroadcastTry::Empty) => {
                self.wait_for_message(wait, waker)?;
                Ok(Poll::Pending)
            }
        }
    }

    /// Ends a receive that may have waited; its waker stays. It takes no memory.
    pub fn end_recv(&mut self, wait: RecvWait)
        requires { has_given self.old.waiting wait ≡ true }
        ensures { self.new ≡ self.old }
    {}

    /// One sender more, where one lives; refused at the greatest number. It takes no memory.
    pub fn add_sender(&mut self) -> Result<(), Overflow>
        requires { 0 < self.old.senders }
        ensures overflow { IsErr result ↔ (self.old.senders ≡ usize.MAX) }
        ensures ok { OnOk result (self.new ≡ record self.old { senders = self.old.senders + 1 }) }
        ensures err { OnErr result (self.new ≡ self.old) }
    {
        let Some(senders) = self.senders.checked_add(1) else {
            return Err(Overflow);
        };
        self.senders = senders;
        Ok(())
    }

    /// One sender less; at the last one all registered wakers are woken, in the order of their registration. It takes
    /// no memory.
    pub fn end_sender(&mut self)
        requires { 0 < self.old.senders }
        ensures { self.new ≡ without_sender self.old }
    {
        self.senders -= 1;
        if self.senders == 0 {
            self.waiting.drain_into(&mut self.outbox);
        }
    }

    /// How many wakers are registered. It takes no memory.
    pub fn registered(&self) -> usize
        ensures { result ≡ length self.now.waiting.wakers }
    {
        self.waiting.len()
    }

    /// Whether the waker of this wait is registered. It takes no memory.
    pub fn is_registered(&self, wait: &RecvWait) -> bool
        ensures { result ≡ is_registered self.now.waiting wait.now }
    {
        self.waiting.is_registered(&wait.slot)
    }

    /// How many wakers are to be called. It takes no memory.
    pub fn wakes_ready(&self) -> usize
        ensures is { result ≡ length self.now.wakes }
        ensures bound { result < 2 ^ 63 }
    {
        self.outbox.len()
    }

    /// Takes the first waker that is to be called. It takes no memory.
    pub fn next_wake(&mut self) -> Option<W>
        ensures some { IfSome result (λ waker. self.old ≡ record self.new { wakes = waker ∷ self.new.wakes }) }
        ensures none { IfNone result ((self.old.wakes ≡ []) × (self.new ≡ self.old)) }
    {
        self.outbox.pop()
    }

    /// Whether the cursor belongs to this channel: it is not past the tail, as `try_recv` asks. It takes no memory.
    pub fn try_recv_allowed(&self, cursor: &Cursor) -> bool
        ensures { IsTrue result ↔ (cursor.now.position ≤ self.now.tail) }
    {
        cursor.position <= self.tail
    }

    /// Whether the wait belongs to this channel, as `end_recv` asks. It takes no memory.
    pub fn end_recv_allowed(&self, wait: &RecvWait) -> bool
        ensures { result ≡ has_given self.now.waiting wait.now }
    {
        self.waiting.has_given(&wait.slot)
    }

    // Registers the waker of a receive that has to wait.
    fn wait_for_message(&mut self, wait: &mut RecvWait, waker: W) -> Result<(), (W, NoMemory)>
        requires { 0 < self.old.senders }
        ensures ok { OnOk result ((self.new ≡ record self.old { waiting = with_waker self.old.waiting wait.old waker })
            × (wait.new ≡ slot_after self.old.waiting wait.old)) }
        ensures replaces { is_registered self.old.waiting wait.old ≡ true → IsOk result }
        ensures err { IfErr result (λ e. (e.0 ≡ waker) × (self.new ≡ self.old) × (wait.new ≡ wait.old)) }
    {
        self.waiting
            .register_with_room(&mut wait.slot, waker, &mut self.outbox)
    }
}
