ghost use Rattle.std.specs.Prelude.{◌≡◌, ◌+◌, ◌<◌, ◌≤◌, ◌==◌, ◌++◌, [], length, true, false, option_to_list, IfOk, OnErr, if◌then◌else◌};
ghost use Rattle.mea_chan_core.specs.Mailbox.{recv_answer, after_recv, without_sender};
ghost use Rattle.mea_chan.specs.Cores.{is_over, message_sent, sent_answer, last_sent, receiver_ended, has_message, no_message_comes};
ghost use Rattle.mea_chan.specs.Entries.{kept, told, Settles, Polls};

use crate::mailbox_core::{MailboxCore, SharedCore, SingleCore};
use crate::receiver_entry::{poll_told, told};
use mea_base::{NoMemory, Ready};
use mea_family::Reply;
use std::marker::Model;

/// What a hall keeps of a channel: its core.
#[derive(Drop)]
pub struct ChannelEntry<C: MailboxCore> {
    core: C,
}

impl<C: MailboxCore> Model for ChannelEntry<C> {
    ghost use Rattle.mea_chan.specs.Cores.{Mailbox};

    ghost Value = { Mailbox };

    ghost view = { λ e. C.mailbox_of e.core };
}

impl<C: MailboxCore> ChannelEntry<C> {
    /// What is kept of this core. It takes no memory.
    pub fn new(core: C) -> Self
        ensures { result ≡ C.mailbox_of core }
    {
        ChannelEntry { core }
    }

    /// Its core. It takes no memory.
    pub fn core(&self) -> &C
        ensures { C.mailbox_of result.now ≡ self.now }
    {
        &self.core
    }

    /// Whether its receiver has ended and no sender lives. It takes no memory.
    pub fn is_over(&self) -> bool
        ensures { result ≡ is_over self.now }
    {
        self.core.is_over()
    }

    // Hands on the wakers that the core has ready, and counts those that it keeps, which were `before`.
    fn settle(&mut self, before: usize, ready: &mut Ready<u64>)
        requires fits { kept self.old + length self.old.wakes ≤ before }
        requires room { before ≤ ready.old.registered }
        ensures entry { self.new ≡ record self.old { wakes = [] } }
        ensures wakers { ready.new.wakers ≡ ready.old.wakers ++ self.old.wakes }
        ensures counted { ready.new.registered + before ≡ ready.old.registered + kept self.old }
    {
        let mut gone = before - self.core.kept_wakers();
        while let Some(waker) = self.core.next_wake() {
            ready.wake(waker);
            gone -= 1;
        }
        ready.unregister(gone);
    }

    /// Takes the first message, if there is one. It takes no memory.
    pub fn receive(&mut self) -> Reply
        ensures answer { result ≡ told (recv_answer self.old) }
        ensures after { self.new ≡ after_recv self.old }
    {
        told(self.core.try_recv())
    }

    /// Polls the receiver. The waker is counted before it is registered, and no longer where it was not registered or
    /// took the place of an earlier one.
    pub fn poll(&mut self, waker: u64, ready: &mut Ready<u64>) -> Result<Reply, NoMemory>
        ensures polls { IfOk result (λ answer. Polls self.old waker answer self.new ready.old ready.new) }
        ensures err { OnErr result ((self.new ≡ self.old) × (ready.new ≡ ready.old)) }
    {
        ready.register()?;
        let before = self.core.kept_wakers();
        let Ok(received) = self.core.poll_recv(waker) else {
            ready.unregister(1);
            return Err(NoMemory);
        };
        let now = self.core.kept_wakers();
        ready.unregister(1 + before - now);
        Ok(poll_told(received))
    }

    /// Ends a sender. It takes no memory.
    pub fn end_sender(&mut self, ready: &mut Ready<u64>)
        requires some { 0 < self.old.senders }
        requires quiet { self.old.wakes ≡ [] }
        requires room { kept self.old ≤ ready.old.registered }
        ensures { Settles self.old (without_sender self.old) self.new ready.old ready.new }
    {
        let before = self.core.kept_wakers();
        self.core.end_sender();
        self.settle(before, ready);
    }

    /// Ends the receiver. It takes no memory.
    pub fn end_receiver(&mut self, ready: &mut Ready<u64>)
        requires some { self.old.ended ≡ false }
        requires quiet { self.old.wakes ≡ [] }
        requires room { kept self.old ≤ ready.old.registered }
        ensures { Settles self.old (receiver_ended C.falls self.old) self.new ready.old ready.new }
    {
        let before = self.core.kept_wakers();
        self.core.end_receiver();
        self.settle(before, ready);
    }
}

impl<C: SharedCore> ChannelEntry<C> {
    /// Whether no further sender can be made. It takes no memory.
    pub fn is_crowded(&self) -> bool
        ensures { result ≡ (self.now.senders == 18446744073709551615) }
    {
        self.core.is_crowded()
    }

    /// Makes a further sender. It takes no memory.
    pub fn add_sender(&mut self)
        requires some { 0 < self.old.senders }
        requires few { (self.old.senders == 18446744073709551615) ≡ false }
        ensures { self.new ≡ record self.old { senders = self.old.senders + 1 } }
    {
        self.core.add_sender();
    }

    /// Sends a message, and tells whether anybody will receive it. On an error nothing has changed.
    pub fn send(&mut self, message: u64, ready: &mut Ready<u64>) -> Result<bool, NoMemory>
        requires quiet { self.old.wakes ≡ [] }
        requires room { kept self.old ≤ ready.old.registered }
        ensures sent { IfOk result (λ sent. (sent ≡ sent_answer self.old) × Settles self.old (message_sent self.old message) self.new ready.old ready.new) }
        ensures err { OnErr result ((self.new ≡ self.old) × (ready.new ≡ ready.old)) }
    {
        let before = self.core.kept_wakers();
        let Ok(sent) = self.core.send(message) else {
            return Err(NoMemory);
        };
        self.settle(before, ready);
        Ok(sent)
    }
}

impl<C: SingleCore> ChannelEntry<C> {
    /// Sends the message, and tells whether anybody will receive it; the sender is gone. It takes no memory.
    pub fn send_last(&mut self, message: u64, ready: &mut Ready<u64>) -> bool
        requires some { 0 < self.old.senders }
        requires quiet { self.old.wakes ≡ [] }
        requires room { kept self.old ≤ ready.old.registered }
        ensures sent { result ≡ sent_answer self.old }
        ensures settles { Settles self.old (last_sent self.old message) self.new ready.old ready.new }
        ensures one { self.old.senders ≡ 1 }
    {
        let before = self.core.kept_wakers();
        let sent = self.core.send_last(message);
        self.settle(before, ready);
        sent
    }

    /// Whether the receiver has ended. It takes no memory.
    pub fn is_closed(&self) -> bool
        ensures { result ≡ self.now.ended }
    {
        self.core.is_closed()
    }

    /// Whether the message is there. It takes no memory.
    pub fn has_message(&self) -> bool
        ensures { result ≡ has_message self.now }
    {
        self.core.has_message()
    }

    /// Whether no message will come any more. It takes no memory.
    pub fn is_disconnected(&self) -> bool
        ensures { result ≡ no_message_comes self.now }
    {
        self.core.is_disconnected()
    }
}
