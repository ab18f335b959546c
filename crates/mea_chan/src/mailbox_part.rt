ghost use Rattle.std.specs.Prelude.{◌≡◌, ◌≢◌, ◌≤◌, IfSome, is_some, Some, if◌then◌else◌};
ghost use Rattle.mea_family.specs.declared.answer.Answer.TheVariants as answers;
ghost use Rattle.mea_chan_model.specs.Mailboxes.{no_mailboxes, is_channel, is_receiver, registered};
ghost use Rattle.mea_chan_model.specs.MailboxActions.{cause_in, Make, Copy, Send, SendLast, EndSender, Receive, Poll, EndReceiver, IntoFuture, TellClosed, TellOver, TellMessage};
ghost use Rattle.mea_chan_model.specs.Valid.{AreValid};
ghost use Rattle.mea_chan.specs.Actions.{mail_action, unbounded_action, oneshot_action, MailActs, MailActsQuietly};
ghost use Rattle.mea_chan.specs.Lends.{StandsFor};

use crate::actions::{MailAction, OneshotAction, UnboundedAction};
use crate::channel_entry::ChannelEntry;
use crate::mailbox_core::{MailboxCore, SharedCore, SingleCore};
use crate::receiver_entry::{ReceiverEntry, receiver_in};
use mea_base::Ready;
use mea_by_name::ByName;
use mea_family::{Reply, Stop, Word, overflow_if, unknown_unless, yes_if};
use std::alloc::Global;
use std::marker::Model;

/// The channels of one kind with their senders and receivers, each by the number of the event that made it. Each call
/// costs a few look-ups by name and the wakers that it makes ready.
#[derive(Drop)]
pub struct MailboxPart<C: MailboxCore> {
    channels: ByName<ChannelEntry<C>>,
    // The channel of each sender.
    senders: ByName<u64>,
    receivers: ByName<ReceiverEntry>,
    // The least number that the next event may have, which may be 2^64.
    next: u128,
    alloc: Global,
}

impl<C: MailboxCore> Model for MailboxPart<C> {
    ghost use Rattle.mea_family.specs.Play.{Part, part_code};
    ghost use Rattle.mea_chan_model.specs.Mailboxes.{Mailboxes, mailboxes_code};

    ghost Value = { Part Mailboxes };

    ghost coded = { part_code mailboxes_code };

    ghost use Rattle.mea_chan.specs.MailboxParts.{mailboxes_seen, AreKeptMailboxes};

    ghost view = { λ a. record { hall = mailboxes_seen a.channels a.senders a.receivers; next = a.next } };

    ghost invariant = { λ a. AreKeptMailboxes a.channels a.senders a.receivers a.next };
}

impl<C: MailboxCore> MailboxPart<C> {
    /// No channel. It takes no memory.
    pub fn new(alloc: Global) -> Self
        ensures { result ≡ record { hall = no_mailboxes; next = 0 } }
    {
        MailboxPart {
            channels: ByName::new(alloc),
            senders: ByName::new(alloc),
            receivers: ByName::new(alloc),
            next: 0,
            alloc,
        }
    }

    /// The core of a channel of which a sender or the receiver lives. It takes no memory.
    pub fn core(&self, o: u64) -> Option<&C>
        ensures there { is_some result ≡ is_channel self.now.hall o }
        ensures stands { IfSome result (λ core. StandsFor self.now.hall o (C.mailbox_of core.now)) }
    {
        let entry = self.channels.get(o)?;
        Some(entry.core())
    }

    /// The channels have the senders and receivers that live. It does nothing.
    pub fn are_valid(&self)
        ensures { AreValid self.now.hall }
    {
        let _next = self.next;
    }

    // Why an action is refused; None where it is not.
    fn cause(&self, action: MailAction) -> Option<Stop>
        ensures { result ≡ cause_in self.now.hall (mail_action C.falls action) }
    {
        match action {
            MailAction::Make(_) => None,
            MailAction::EndSender(s) => unknown_unless(self.senders.has(s)),
            MailAction::Receive(r, polls) => unknown_unless(self.is_receiver(r, polls)),
            MailAction::Poll(r, _) => unknown_unless(self.is_receiver(r, true)),
            MailAction::EndReceiver(r, polls) => unknown_unless(self.is_receiver(r, polls)),
        }
    }

    // Does an action, or finds why it is refused. On an error nothing has changed.
    fn act(
        &mut self,
        number: u64,
        action: MailAction,
        ready: &mut Ready<u64>,
    ) -> Result<Reply, Stop>
        requires next { self.old.next ≤ number }
        requires room { registered self.old.hall ≤ ready.old.registered }
        ensures { MailActs self.old number (mail_action C.falls action) result self.new ready.old ready.new }
    {
        match action {
            MailAction::Make(polls) => self.make(number, polls),
            MailAction::EndSender(s) => self.end_sender(number, s, ready),
            MailAction::Receive(r, polls) => self.receive(number, r, polls),
            MailAction::Poll(r, waker) => self.poll(number, r, waker, ready),
            MailAction::EndReceiver(r, polls) => self.end_receiver(number, r, polls, ready),
        }
    }

    // Whether it is a receiver that can be polled, or cannot.
    fn is_receiver(&self, r: u64, polls: bool) -> bool
        ensures { result ≡ is_receiver self.now.hall r polls }
    {
        receiver_in(&self.receivers, r, polls).is_some()
    }

    // Makes a channel, with a sender and a receiver. On an error nothing has changed.
    fn make(&mut self, number: u64, polls: bool) -> Result<Reply, Stop>
        requires next { self.old.next ≤ number }
        ensures { MailActsQuietly self.old number (Make polls) result self.new }
    {
        let Ok(()) = self.senders.insert(number, number) else {
            return Err(Stop::NoMemory);
        };
        let receiver = ReceiverEntry {
            channel: number,
            polls,
        };
        let Ok(()) = self.receivers.insert(number, receiver) else {
            let _ = self.senders.remove(number);
            return Err(Stop::NoMemory);
        };
        let entry = ChannelEntry::new(C::make(self.alloc));
        let Ok(()) = self.channels.insert(number, entry) else {
            let _ = self.senders.remove(number);
            let _ = self.receivers.remove(number);
            return Err(Stop::NoMemory);
        };
        self.next = number as u128 + 1;
        Ok(Reply(Word::Made))
    }

    // Ends a sender. It takes no memory.
    fn end_sender(&mut self, number: u64, s: u64, ready: &mut Ready<u64>) -> Result<Reply, Stop>
        requires next { self.old.next ≤ number }
        requires room { registered self.old.hall ≤ ready.old.registered }
        ensures { MailActs self.old number (EndSender s) result self.new ready.old ready.new }
    {
        let Some(o) = self.senders.take(s) else {
            return Err(Stop::Unknown);
        };
        let entry = self.channels.at_mut(o);
        entry.end_sender(ready);
        let over = entry.is_over();
        self.channels.remove_if(o, over);
        self.next = number as u128 + 1;
        Ok(Reply(Word::Done))
    }

    // Takes the first message of a receiver, that can be polled or cannot. It takes no memory.
    fn receive(&mut self, number: u64, r: u64, polls: bool) -> Result<Reply, Stop>
        requires next { self.old.next ≤ number }
        ensures { MailActsQuietly self.old number (Receive r polls) result self.new }
    {
        let Some(receiver) = receiver_in(&self.receivers, r, polls) else {
            return Err(Stop::Unknown);
        };
        let answer = self.channels.at_mut(receiver.channel).receive();
        self.next = number as u128 + 1;
        Ok(answer)
    }

    // Polls a receiver. On an error nothing has changed.
    fn poll(
        &mut self,
        number: u64,
        r: u64,
        waker: u64,
        ready: &mut Ready<u64>,
    ) -> Result<Reply, Stop>
        requires next { self.old.next ≤ number }
        ensures { MailActs self.old number (Poll r waker) result self.new ready.old ready.new }
    {
        let Some(receiver) = receiver_in(&self.receivers, r, true) else {
            return Err(Stop::Unknown);
        };
        let entry = self.channels.at_mut(receiver.channel);
        let Ok(answer) = entry.poll(waker, ready) else {
            return Err(Stop::NoMemory);
        };
        self.next = number as u128 + 1;
        Ok(answer)
    }

    // Ends a receiver, that can be polled or cannot. It takes no memory.
    fn end_receiver(
        &mut self,
        number: u64,
        r: u64,
        polls: bool,
        ready: &mut Ready<u64>,
    ) -> Result<Reply, Stop>
        requires next { self.old.next ≤ number }
        requires room { registered self.old.hall ≤ ready.old.registered }
        ensures { MailActs self.old number (EndReceiver r polls C.falls) result self.new ready.old ready.new }
    {
        let Some(receiver) = receiver_in(&self.receivers, r, polls) else {
            return Err(Stop::Unknown);
        };
        let _ = self.receivers.remove(r);
        let o = receiver.channel;
        let entry = self.channels.at_mut(o);
        entry.end_receiver(ready);
        let over = entry.is_over();
        self.channels.remove_if(o, over);
        self.next = number as u128 + 1;
        Ok(Reply(Word::Done))
    }
}

impl<C: SharedCore> MailboxPart<C> {
    /// Why an action is refused; None where it is not. It takes no memory.
    pub fn cause_unbounded(&self, action: UnboundedAction) -> Option<Stop>
        ensures { result ≡ cause_in self.now.hall (unbounded_action C.falls action) }
    {
        match action {
            UnboundedAction::Mail(action) => self.cause(action),
            UnboundedAction::Copy(s) => self.cause_of_copy(s),
            UnboundedAction::Send(s, _) => unknown_unless(self.senders.has(s)),
        }
    }

    /// Does an action, or finds why it is refused. On an error nothing has changed.
    pub fn act_unbounded(
        &mut self,
        number: u64,
        action: UnboundedAction,
        ready: &mut Ready<u64>,
    ) -> Result<Reply, Stop>
        requires next { self.old.next ≤ number }
        requires room { registered self.old.hall ≤ ready.old.registered }
        ensures { MailActs self.old number (unbounded_action C.falls action) result self.new ready.old ready.new }
    {
        match action {
            UnboundedAction::Mail(action) => self.act(number, action, ready),
            UnboundedAction::Copy(s) => self.copy(number, s),
            UnboundedAction::Send(s, message) => self.send(number, s, message, ready),
        }
    }

    // Why a further sender is refused: the one beside it is unknown, or the channel has as many as it may have.
    fn cause_of_copy(&self, s: u64) -> Option<Stop>
        ensures is { result ≡ cause_in self.now.hall (Copy s) }
        ensures tells { result ≢ Some Stop.NoMemory }
    {
        match self.senders.get(s) {
            Some(o) => overflow_if(self.channels.at(*o).is_crowded()),
            None => Some(Stop::Unknown),
        }
    }

    // Makes a further sender. On an error nothing has changed.
    fn copy(&mut self, number: u64, s: u64) -> Result<Reply, Stop>
        requires next { self.old.next ≤ number }
        ensures { MailActsQuietly self.old number (Copy s) result self.new }
    {
        if let Some(stop) = self.cause_of_copy(s) {
            return Err(stop);
        }
        let o = *self.senders.at(s);
        let Ok(()) = self.senders.insert(number, o) else {
            return Err(Stop::NoMemory);
        };
        self.channels.at_mut(o).add_sender();
        self.next = number as u128 + 1;
        Ok(Reply(Word::Made))
    }

    // Sends a message. On an error nothing has changed.
    fn send(
        &mut self,
        number: u64,
        s: u64,
        message: u64,
        ready: &mut Ready<u64>,
    ) -> Result<Reply, Stop>
        requires next { self.old.next ≤ number }
        requires room { registered self.old.hall ≤ ready.old.registered }
        ensures { MailActs self.old number (Send s message) result self.new ready.old ready.new }
    {
        let Some(o) = self.senders.get(s) else {
            return Err(Stop::Unknown);
        };
        let Ok(sent) = self.channels.at_mut(*o).send(message, ready) else {
            return Err(Stop::NoMemory);
        };
        self.next = number as u128 + 1;
        Ok(answer_of_send(sent, message))
    }
}

impl<C: SingleCore> MailboxPart<C> {
    /// Why an action is refused; None where it is not. It takes no memory.
    pub fn cause_oneshot(&self, action: OneshotAction) -> Option<Stop>
        ensures { result ≡ cause_in self.now.hall (oneshot_action C.falls action) }
    {
        match action {
            OneshotAction::Mail(action) => self.cause(action),
            OneshotAction::SendLast(s, _) | OneshotAction::TellClosed(s) => unknown_unless(
                self.senders.has(s),
            ),
            OneshotAction::IntoFuture(r) => unknown_unless(self.is_receiver(r, false)),
            OneshotAction::TellOver(r) | OneshotAction::TellMessage(r) => unknown_unless(
                self.is_receiver(r, false),
            ),
        }
    }

    /// Does an action, or finds why it is refused. On an error nothing has changed.
    pub fn act_oneshot(
        &mut self,
        number: u64,
        action: OneshotAction,
        ready: &mut Ready<u64>,
    ) -> Result<Reply, Stop>
        requires next { self.old.next ≤ number }
        requires room { registered self.old.hall ≤ ready.old.registered }
        ensures { MailActs self.old number (oneshot_action C.falls action) result self.new ready.old ready.new }
    {
        match action {
            OneshotAction::Mail(action) => self.act(number, action, ready),
            OneshotAction::SendLast(s, message) => self.send_last(number, s, message, ready),
            OneshotAction::IntoFuture(r) => self.into_future(number, r),
            OneshotAction::TellClosed(s) => self.tell_closed(number, s),
            OneshotAction::TellOver(r) => self.tell_over(number, r),
            OneshotAction::TellMessage(r) => self.tell_message(number, r),
        }
    }

    // Sends the message; the sender is gone. It takes no memory.
    fn send_last(
        &mut self,
        number: u64,
        s: u64,
        message: u64,
        ready: &mut Ready<u64>,
    ) -> Result<Reply, Stop>
        requires next { self.old.next ≤ number }
        requires room { registered self.old.hall ≤ ready.old.registered }
        ensures { MailActs self.old number (SendLast s message) result self.new ready.old ready.new }
    {
        let Some(o) = self.senders.take(s) else {
            return Err(Stop::Unknown);
        };
        let entry = self.channels.at_mut(o);
        let sent = entry.send_last(message, ready);
        let over = entry.is_over();
        self.channels.remove_if(o, over);
        self.next = number as u128 + 1;
        Ok(answer_of_send(sent, message))
    }

    // Makes a receiver a future. On an error nothing has changed.
    fn into_future(&mut self, number: u64, r: u64) -> Result<Reply, Stop>
        requires next { self.old.next ≤ number }
        ensures { MailActsQuietly self.old number (IntoFuture r) result self.new }
    {
        let Some(receiver) = receiver_in(&self.receivers, r, false) else {
            return Err(Stop::Unknown);
        };
        let future = ReceiverEntry {
            channel: receiver.channel,
            polls: true,
        };
        let Ok(()) = self.receivers.replace(r, number, future) else {
            return Err(Stop::NoMemory);
        };
        self.next = number as u128 + 1;
        Ok(Reply(Word::Made))
    }

    // Tells a sender whether the receiver has ended. It takes no memory.
    fn tell_closed(&mut self, number: u64, s: u64) -> Result<Reply, Stop>
        requires next { self.old.next ≤ number }
        ensures { MailActsQuietly self.old number (TellClosed s) result self.new }
    {
        let Some(o) = self.senders.get(s) else {
            return Err(Stop::Unknown);
        };
        let closed = self.channels.at(*o).is_closed();
        self.next = number as u128 + 1;
        Ok(yes_if(closed))
    }

    // Tells a receiver whether no message will come any more. It takes no memory.
    fn tell_over(&mut self, number: u64, r: u64) -> Result<Reply, Stop>
        requires next { self.old.next ≤ number }
        ensures { MailActsQuietly self.old number (TellOver r) result self.new }
    {
        let Some(receiver) = receiver_in(&self.receivers, r, false) else {
            return Err(Stop::Unknown);
        };
        let over = self.channels.at(receiver.channel).is_disconnected();
        self.next = number as u128 + 1;
        Ok(yes_if(over))
    }

    // Tells a receiver whether the message is there. It takes no memory.
    fn tell_message(&mut self, number: u64, r: u64) -> Result<Reply, Stop>
        requires next { self.old.next ≤ number }
        ensures { MailActsQuietly self.old number (TellMessage r) result self.new }
    {
        let Some(receiver) = receiver_in(&self.receivers, r, false) else {
            return Err(Stop::Unknown);
        };
        let there = self.channels.at(receiver.channel).has_message();
        self.next = number as u128 + 1;
        Ok(yes_if(there))
    }
}

fn answer_of_send(sent: bool, message: u64) -> Reply
    ensures { result ≡ (if sent then answers.Accepted else answers.Closed message) }
{
    if sent {
        Reply(Word::Accepted)
    } else {
        Reply(Word::Closed(message))
    }
}
