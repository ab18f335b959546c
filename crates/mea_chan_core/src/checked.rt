ghost use Rattle.std.specs.Prelude.{◌≡◌, ◌≢◌, ◌+◌, ◌<◌, ◌↔◌, Some, true, false, IsTrue, IsErr, IsNone, IfSome, OnOk, OnErr};

use crate::bounded::BoundedCore;
use crate::errors::SendError;
use crate::oneshot::OneshotCore;
use crate::send_wait::SendWait;
use crate::unbounded::UnboundedCore;
use mea_base::{NoMemory, Overflow, Poll};
use std::collections::VecDeque;

/// The tests of what a call asks of the channel, and the calls in a form that asks for nothing.
impl<T: Drop, W: Drop> BoundedCore<T, W> {
    ghost use Rattle.mea_sem_core.specs.Calls.{Belongs};
    ghost use Rattle.mea_sem_core.specs.declared.acquire.Acquire.{Acquire};
    ghost use Rattle.mea_chan_core.specs.Bounded.{PollsSend, EndsSend, without_sender, without_receiver};

    /// Whether the send is one of this channel, which `end_send` asks for. It takes no memory.
    pub fn end_send_allowed(&self, send: &SendWait<T>) -> bool
        ensures { IsTrue result ↔ Belongs self.now.waiting send.now.acquire }
    {
        self.poll_send_allowed(send)
    }

    /// `poll_send`, of a send that is renewed first where it is not one of this channel.
    pub fn poll_send_checked(
        &mut self,
        send: &mut SendWait<T>,
        waker: W,
    ) -> Result<Poll<Result<(), SendError<T>>>, (W, NoMemory)>
        ensures allowed { Belongs self.old.waiting send.old.acquire → PollsSend self.old send.old.value send.old.acquire waker result self.new send.new.value send.new.acquire }
        ensures renewed { ¬ Belongs self.old.waiting send.old.acquire → PollsSend self.old send.old.value (Acquire.New 1) waker result self.new send.new.value send.new.acquire }
    {
        if !self.poll_send_allowed(send) {
            send.renew();
        }
        self.poll_send(send, waker)
    }

    /// `end_send`, which hands the value back and changes nothing where the send is not one of this channel. It takes no
    /// memory.
    pub fn end_send_checked(&mut self, send: SendWait<T>) -> Option<T>
        ensures value { result ≡ send.value }
        ensures allowed { Belongs self.old.waiting send.acquire → EndsSend self.old send.acquire self.new }
        ensures refused { ¬ Belongs self.old.waiting send.acquire → self.new ≡ self.old }
    {
        if self.end_send_allowed(&send) {
            self.end_send(send)
        } else {
            let SendWait { value, .. } = send;
            value
        }
    }

    /// Whether a sender lives, which `add_sender` and `end_sender` ask for. It takes no memory.
    pub fn end_sender_allowed(&self) -> bool
        ensures { IsTrue result ↔ (0 < self.now.senders) }
    {
        self.senders() > 0
    }

    /// `add_sender`, which is Ok and changes nothing where no sender lives. It takes no memory.
    pub fn add_sender_checked(&mut self) -> Result<(), Overflow>
        ensures overflow { IsErr result ↔ (self.old.senders ≡ usize.MAX) }
        ensures ok { OnOk result (0 < self.old.senders → self.new ≡ record self.old { senders = self.old.senders + 1 }) }
        ensures none { self.old.senders ≡ 0 → self.new ≡ self.old }
        ensures err { OnErr result (self.new ≡ self.old) }
    {
        if self.end_sender_allowed() {
            self.add_sender()
        } else {
            Ok(())
        }
    }

    /// `end_sender`, which changes nothing where no sender lives. It takes no memory.
    pub fn end_sender_checked(&mut self)
        ensures allowed { 0 < self.old.senders → self.new ≡ without_sender self.old }
        ensures none { self.old.senders ≡ 0 → self.new ≡ self.old }
    {
        if self.end_sender_allowed() {
            self.end_sender();
        }
    }

    /// `end_receiver`, which hands the queued messages out, so that who holds a lock drops them outside it. Where the
    /// receiver has ended it changes nothing. It takes no memory.
    pub fn end_receiver_checked(&mut self) -> Option<VecDeque<T>>
        ensures allowed { self.old.ended ≡ false → self.new ≡ without_receiver self.old }
        ensures ended { self.old.ended ≡ true → self.new ≡ self.old }
        ensures none { IsNone result ↔ (self.old.ended ≡ true) }
        ensures queued { IfSome result (λ queued. queued.items ≡ self.old.queued) }
    {
        if self.is_closed() {
            None
        } else {
            Some(self.close())
        }
    }
}

/// The test of what a call asks of the channel, and the calls in a form that asks for nothing.
impl<T: Drop, W: Drop> UnboundedCore<T, W> {
    ghost use Rattle.mea_chan_core.specs.Mailbox.{without_sender, without_receiver};

    /// Whether a sender lives, which `add_sender` and `end_sender` ask for. It takes no memory.
    pub fn end_sender_allowed(&self) -> bool
        ensures { IsTrue result ↔ (0 < self.now.senders) }
    {
        self.senders() > 0
    }

    /// `add_sender`, which is Ok and changes nothing where no sender lives. It takes no memory.
    pub fn add_sender_checked(&mut self) -> Result<(), Overflow>
        ensures overflow { IsErr result ↔ (self.old.senders ≡ usize.MAX) }
        ensures ok { OnOk result (0 < self.old.senders → self.new ≡ record self.old { senders = self.old.senders + 1 }) }
        ensures none { self.old.senders ≡ 0 → self.new ≡ self.old }
        ensures err { OnErr result (self.new ≡ self.old) }
    {
        if self.end_sender_allowed() {
            self.add_sender()
        } else {
            Ok(())
        }
    }

    /// `end_sender`, which changes nothing where no sender lives. It takes no memory.
    pub fn end_sender_checked(&mut self)
        ensures allowed { 0 < self.old.senders → self.new ≡ without_sender self.old }
        ensures none { self.old.senders ≡ 0 → self.new ≡ self.old }
    {
        if self.end_sender_allowed() {
            self.end_sender();
        }
    }

    /// `end_receiver`, which hands the queued messages out, so that who holds a lock drops them outside it. Where the
    /// receiver has ended it changes nothing. It takes no memory.
    pub fn end_receiver_checked(&mut self) -> Option<VecDeque<T>>
        ensures allowed { self.old.ended ≡ false → self.new ≡ without_receiver self.old }
        ensures ended { self.old.ended ≡ true → self.new ≡ self.old }
        ensures none { IsNone result ↔ (self.old.ended ≡ true) }
        ensures queued { IfSome result (λ queued. queued.items ≡ self.old.queued) }
    {
        if self.is_closed() {
            None
        } else {
            Some(self.close())
        }
    }
}

/// The ends in a form that asks for nothing.
impl<T: Drop, W: Drop> OneshotCore<T, W> {
    ghost use Rattle.mea_chan_core.specs.Oneshot.{without_sender, without_receiver};

    /// `end_sender`, which changes nothing where the sender has sent or ended. It takes no memory.
    pub fn end_sender_checked(&mut self)
        ensures allowed { self.old.sender ≡ true → self.new ≡ without_sender self.old }
        ensures ended { self.old.sender ≡ false → self.new ≡ self.old }
    {
        if self.end_sender_allowed() {
            self.end_sender();
        }
    }

    /// `end_receiver`, which changes nothing where the receiver has ended. It takes no memory.
    pub fn end_receiver_checked(&mut self)
        ensures allowed { self.old.receiver ≡ true → self.new ≡ without_receiver self.old }
        ensures ended { self.old.receiver ≡ false → self.new ≡ self.old }
    {
        if self.end_receiver_allowed() {
            self.end_receiver();
        }
    }
}
