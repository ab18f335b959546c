ghost use Rattle.std.specs.Prelude.{◌≡◌, ◌+◌, ◌<◌, ◌≤◌, ◌==◌, ◌++◌, [], length, map, false, IfOk, OnErr};
ghost use Rattle.mea_sem_core.specs.Calls.{Belongs};
ghost use Rattle.mea_chan_core.specs.Bounded.{send_answer, after_send, recv_answer, after_recv, EndsSend, without_sender, without_receiver};
ghost use Rattle.mea_chan_core.specs.Woken.{IsChannel};
ghost use Rattle.mea_chan.specs.Cores.{is_over};
ghost use Rattle.mea_chan.specs.BoundedCores.{NamedChannel, as_mailbox, HandsOn, SendPolled, kept_by, handed_on, polled_as};

use crate::send_entry::SendEntry;
use mea_base::{NoMemory, Poll, Ready};
use mea_by_name::NamedWaker;
use mea_chan_core::{BoundedCore, RecvError, SendError, TryRecvError, TrySendError};
use std::marker::Model;

/// What a hall keeps of a bounded channel: its core, whose wakers carry the names of their futures and receivers.
#[derive(Drop)]
pub struct BoundedEntry {
    core: BoundedCore<u64, NamedWaker>,
}

impl Model for BoundedEntry {
    ghost use Rattle.mea_chan.specs.BoundedCores.{NamedChannel, named_channel_code};

    ghost Value = { NamedChannel };

    ghost coded = { named_channel_code };

    ghost view = { λ e. e.core };
}

impl BoundedEntry {
    /// What is kept of this core. It takes no memory.
    pub fn new(core: BoundedCore<u64, NamedWaker>) -> Self
        ensures { result ≡ core }
    {
        BoundedEntry { core }
    }

    /// Its core. It takes no memory.
    pub fn core(&self) -> &BoundedCore<u64, NamedWaker>
        ensures { result.now ≡ self.now }
    {
        &self.core
    }

    // How many wakers it keeps. It takes no memory.
    fn kept_wakers(&self) -> usize
        ensures count { result ≡ kept_by self.now }
        ensures channel { IsChannel self.now }
    {
        usize::from(self.core.is_waiting()) + self.core.queue_len()
    }

    /// Whether its receiver has ended and no sender lives. It takes no memory.
    pub fn is_over(&self) -> bool
        ensures { result ≡ is_over (as_mailbox self.now) }
    {
        self.core.is_closed() && self.core.senders() == 0
    }

    /// Whether no further sender can be made. It takes no memory.
    pub fn is_crowded(&self) -> bool
        ensures { result ≡ (self.now.senders == 18446744073709551615) }
    {
        self.core.senders() == usize::MAX
    }

    /// Makes a further sender. It takes no memory.
    pub fn add_sender(&mut self)
        requires some { 0 < self.old.senders }
        requires few { (self.old.senders == 18446744073709551615) ≡ false }
        ensures { self.new ≡ record self.old { senders = self.old.senders + 1 } }
    {
        let _ = self.core.add_sender();
    }

    // Hands on the wakers that the core has ready, and counts those that it keeps, which were `before` at the most.
    fn settle(&mut self, before: usize, ready: &mut Ready<u64>)
        requires fits { kept_by self.old + length self.old.wakes ≤ before }
        requires room { before ≤ ready.old.registered }
        ensures entry { self.new ≡ handed_on self.old }
        ensures wakers { ready.new.wakers ≡ ready.old.wakers ++ map (λ k. k.waker) self.old.wakes }
        ensures counted { ready.new.registered + before ≡ ready.old.registered + kept_by self.old }
    {
        let mut gone = before - self.kept_wakers();
        while let Some(next) = self.core.next_wake() {
            ready.wake(next.waker);
            gone -= 1;
        }
        ready.unregister(gone);
    }

    /// Sends a message, where there is a place for it. It takes no memory.
    pub fn try_send(
        &mut self,
        message: u64,
        ready: &mut Ready<u64>,
    ) -> Result<(), TrySendError<u64>>
        requires quiet { self.old.wakes ≡ [] }
        requires room { kept_by self.old ≤ ready.old.registered }
        ensures answer { result ≡ send_answer self.old message }
        ensures settles { HandsOn self.old (after_send self.old message) self.new ready.old ready.new }
        ensures channel { IsChannel self.old }
    {
        let before = self.kept_wakers();
        let sent = self.core.try_send(message);
        self.settle(before, ready);
        sent
    }

    /// Polls the send that is named `f`. The waker is counted before it is registered, and no longer where it was not
    /// registered or took the place of an earlier one. On an error nothing has changed.
    pub fn poll_send(
        &mut self,
        f: u64,
        send: &mut SendEntry,
        waker: u64,
        ready: &mut Ready<u64>,
    ) -> Result<Poll<Result<(), SendError<u64>>>, NoMemory>
        requires belongs { Belongs self.old.waiting send.old.acquire }
        requires quiet { self.old.wakes ≡ [] }
        requires room { kept_by self.old ≤ ready.old.registered }
        ensures polls { IfOk result (λ turn. SendPolled self.old send.old (record { name = f; waker = waker }) turn self.new send.new ready.old ready.new) }
        ensures err { OnErr result ((self.new ≡ self.old) × (send.new ≡ send.old) × (ready.new ≡ ready.old)) }
        ensures channel { IsChannel self.old }
    {
        let before = self.kept_wakers();
        ready.register()?;
        // The sum of those that wait and one more is at most this.
        let _registered = ready.registered();
        let Ok(turn) = self
            .core
            .poll_send(&mut send.wait, NamedWaker { name: f, waker })
        else {
            ready.unregister(1);
            return Err(NoMemory);
        };
        self.settle(before + 1, ready);
        Ok(turn)
    }

    /// Ends a send; its value is dropped. It takes no memory.
    pub fn end_send(&mut self, send: SendEntry, ready: &mut Ready<u64>)
        requires belongs { Belongs self.old.waiting send.acquire }
        requires quiet { self.old.wakes ≡ [] }
        requires room { kept_by self.old ≤ ready.old.registered }
        ensures ends { (c : NamedChannel) × EndsSend self.old send.acquire c × HandsOn self.old c self.new ready.old ready.new }
        ensures channel { IsChannel self.old }
    {
        let before = self.kept_wakers();
        let _ = self.core.end_send(send.wait);
        self.settle(before, ready);
    }

    /// Takes the first message, if there is one. It takes no memory.
    pub fn receive(&mut self, ready: &mut Ready<u64>) -> Result<u64, TryRecvError>
        requires quiet { self.old.wakes ≡ [] }
        requires room { kept_by self.old ≤ ready.old.registered }
        ensures answer { result ≡ recv_answer self.old }
        ensures settles { HandsOn self.old (after_recv self.old) self.new ready.old ready.new }
        ensures channel { IsChannel self.old }
    {
        let before = self.kept_wakers();
        let received = self.core.try_recv();
        self.settle(before, ready);
        received
    }

    // Polls the receiver at the core, and answers as a try does.
    fn poll_core(&mut self, waker: NamedWaker) -> Result<Result<u64, TryRecvError>, NoMemory>
        ensures polls { IfOk result (λ answer. (answer ≡ recv_answer self.old) × (self.new ≡ polled_as self.old waker answer)) }
        ensures err { OnErr result (self.new ≡ self.old) }
    {
        match self.core.poll_recv(waker) {
            Ok(Poll::Ready(Ok(message))) => Ok(Ok(message)),
            Ok(Poll::Ready(Err(RecvError::Disconnected))) => Ok(Err(TryRecvError::Disconnected)),
            Ok(Poll::Pending) => Ok(Err(TryRecvError::Empty)),
            Err(_) => Err(NoMemory),
        }
    }

    /// Polls the receiver that is named `r`; where there is no message yet, that is told, and the waker is kept. On an
    /// error nothing has changed.
    pub fn poll_receive(
        &mut self,
        r: u64,
        waker: u64,
        ready: &mut Ready<u64>,
    ) -> Result<Result<u64, TryRecvError>, NoMemory>
        requires quiet { self.old.wakes ≡ [] }
        requires room { kept_by self.old ≤ ready.old.registered }
        ensures polls { IfOk result (λ answer. (answer ≡ recv_answer self.old) × HandsOn self.old (polled_as self.old (record { name = r; waker = waker }) answer) self.new ready.old ready.new) }
        ensures err { OnErr result ((self.new ≡ self.old) × (ready.new ≡ ready.old)) }
        ensures channel { IsChannel self.old }
    {
        let before = self.kept_wakers();
        ready.register()?;
        // The sum of those that wait and one more is at most this.
        let _registered = ready.registered();
        let Ok(received) = self.poll_core(NamedWaker { name: r, waker }) else {
            ready.unregister(1);
            return Err(NoMemory);
        };
        self.settle(before + 1, ready);
        Ok(received)
    }

    /// Ends a sender. It takes no memory.
    pub fn end_sender(&mut self, ready: &mut Ready<u64>)
        requires some { 0 < self.old.senders }
        requires quiet { self.old.wakes ≡ [] }
        requires room { kept_by self.old ≤ ready.old.registered }
        ensures settles { HandsOn self.old (without_sender self.old) self.new ready.old ready.new }
        ensures channel { IsChannel self.old }
    {
        let before = self.kept_wakers();
        self.core.end_sender();
        self.settle(before, ready);
    }

    /// Ends the receiver. It takes no memory.
    pub fn end_receiver(&mut self, ready: &mut Ready<u64>)
        requires some { self.old.ended ≡ false }
        requires quiet { self.old.wakes ≡ [] }
        requires room { kept_by self.old ≤ ready.old.registered }
        ensures settles { HandsOn self.old (without_receiver self.old) self.new ready.old ready.new }
        ensures channel { IsChannel self.old }
    {
        let before = self.kept_wakers();
        self.core.end_receiver();
        self.settle(before, ready);
    }
}
