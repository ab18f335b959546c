ghost use Rattle.std.specs.Prelude.{◌≡◌, ◌≢◌, ◌≤◌, ◌<◌, IfSome, is_some, None, Some, [], false};
ghost use Rattle.mea_chan_model.specs.Mailboxes.{is_channel, is_sender};
ghost use Rattle.mea_chan_model.specs.Bounded.{no_bounded, is_send, registered};
ghost use Rattle.mea_chan_model.specs.declared.bounded_action.BoundedAction.TheVariants.{Make, CopySender, TrySend, BeginSend, PollSend, EndSend, TryReceive, PollReceive, EndSender, EndReceiver};
ghost use Rattle.mea_chan_model.specs.BoundedActions.{bounded_cause};
ghost use Rattle.mea_chan_model.specs.Valid.{AreValid};
ghost use Rattle.mea_chan_core.specs.Channel.{no_senders};
ghost use Rattle.mea_chan.specs.Actions.{BoundedActs};
ghost use Rattle.mea_chan.specs.BoundedLends.{StandsForBounded};
ghost use Rattle.mea_chan.specs.BoundedCores.{tried_told, ready_told};

use crate::bounded_entry::BoundedEntry;
use crate::receiver_entry::{ReceiverEntry, poll_told, receiver_in, told};
use crate::send_entry::SendEntry;
use crate::sender_entry::SenderEntry;
use mea_base::{Poll, Ready};
use mea_by_name::{ByName, NamedWaker};
use mea_chan_core::{BoundedCore, SendError, TrySendError};
use mea_chan_model::BoundedAction;
use mea_family::{Reply, Stop, Word, borrowed_if, overflow_if, unknown_unless, zero_if};
use std::alloc::Global;
use std::marker::Model;

/// The bounded channels with their senders, receivers and sends, each by the number of the event that made it. Each call
/// costs a few look-ups by name and the wakers that it makes ready.
#[derive(Drop)]
pub struct BoundedPart {
    channels: ByName<BoundedEntry>,
    senders: ByName<SenderEntry>,
    receivers: ByName<ReceiverEntry>,
    sends: ByName<SendEntry>,
    // The least number that the next event may have, which may be 2^64.
    next: u128,
    alloc: Global,
}

impl Model for BoundedPart {
    ghost use Rattle.mea_family.specs.Play.{Part, part_code};
    ghost use Rattle.mea_chan_model.specs.Bounded.{Bounded, bounded_code};

    ghost Value = { Part Bounded };

    ghost coded = { part_code bounded_code };

    ghost use Rattle.mea_chan.specs.BoundedParts.{bounded_seen, IsKeptBounded};

    ghost view = { λ a. record { hall = bounded_seen a.channels a.senders a.receivers a.sends; next = a.next } };

    ghost invariant = { λ a. IsKeptBounded a.channels a.senders a.receivers a.sends a.next };
}

impl BoundedPart {
    /// No channel. It takes no memory.
    pub fn new(alloc: Global) -> Self
        ensures { result ≡ record { hall = no_bounded; next = 0 } }
    {
        BoundedPart {
            channels: ByName::new(alloc),
            senders: ByName::new(alloc),
            receivers: ByName::new(alloc),
            sends: ByName::new(alloc),
            next: 0,
            alloc,
        }
    }

    /// The core of a channel. It takes no memory.
    pub fn core(&self, o: u64) -> Option<&BoundedCore<u64, NamedWaker>>
        ensures there { is_some result ≡ is_channel self.now.hall.mail o }
        ensures stands { IfSome result (λ core. StandsForBounded self.now.hall o core.now) }
    {
        let entry = self.channels.get(o)?;
        Some(entry.core())
    }

    /// The channels have the senders and receivers that live. It does nothing.
    pub fn are_valid(&self)
        ensures { AreValid self.now.hall.mail }
    {
        let _next = self.next;
    }

    /// Why an action is refused; None where it is not. It takes no memory.
    pub fn cause(&self, action: BoundedAction) -> Option<Stop>
        ensures { result ≡ bounded_cause self.now.hall action }
    {
        match action {
            BoundedAction::Make(n) => zero_if(n == 0),
            BoundedAction::CopySender(s) => self.cause_of_copy(s),
            BoundedAction::TrySend(s, _) | BoundedAction::BeginSend(s, _) => unknown_unless(
                self.is_sender(s),
            ),
            BoundedAction::PollSend(f, _) | BoundedAction::EndSend(f) => unknown_unless(
                self.is_send(f),
            ),
            BoundedAction::TryReceive(r) | BoundedAction::PollReceive(r, _) =>
                self.cause_of_receive(r),
            BoundedAction::EndSender(s) => self.cause_of_end(s),
            BoundedAction::EndReceiver(r) => self.cause_of_receive(r),
        }
    }

    /// Does an action, or finds why it is refused. On an error nothing has changed.
    pub fn act(
        &mut self,
        number: u64,
        action: BoundedAction,
        ready: &mut Ready<u64>,
    ) -> Result<Reply, Stop>
        requires next { self.old.next ≤ number }
        requires room { registered self.old.hall ≤ ready.old.registered }
        ensures { BoundedActs self.old number action result self.new ready.old ready.new }
    {
        match action {
            BoundedAction::Make(n) => self.make(number, n, ready),
            BoundedAction::CopySender(s) => self.copy(number, s, ready),
            BoundedAction::TrySend(s, message) => self.try_send(number, s, message, ready),
            BoundedAction::BeginSend(s, message) => self.begin(number, s, message, ready),
            BoundedAction::PollSend(f, waker) => self.poll_send(number, f, waker, ready),
            BoundedAction::EndSend(f) => self.end_send(number, f, ready),
            BoundedAction::TryReceive(r) => self.receive(number, r, ready),
            BoundedAction::PollReceive(r, waker) => self.poll_receive(number, r, waker, ready),
            BoundedAction::EndSender(s) => self.end_sender(number, s, ready),
            BoundedAction::EndReceiver(r) => self.end_receiver(number, r, ready),
        }
    }

    fn is_sender(&self, s: u64) -> bool
        ensures { result ≡ is_sender self.now.hall.mail s }
    {
        self.senders.has(s)
    }

    fn is_send(&self, f: u64) -> bool
        ensures { result ≡ is_send self.now.hall f }
    {
        self.sends.has(f)
    }

    // Why what is done by a receiver is refused: it is unknown.
    fn cause_of_receive(&self, r: u64) -> Option<Stop>
        ensures { result ≡ bounded_cause self.now.hall (TryReceive r) }
    {
        unknown_unless(receiver_in(&self.receivers, r, true).is_some())
    }

    // Why a further sender is refused: the one beside it is unknown, or the channel has as many as it may have.
    fn cause_of_copy(&self, s: u64) -> Option<Stop>
        ensures is { result ≡ bounded_cause self.now.hall (CopySender s) }
        ensures tells { result ≢ Some Stop.NoMemory }
    {
        match self.senders.get(s) {
            Some(sender) => overflow_if(self.channels.at(sender.channel).is_crowded()),
            None => Some(Stop::Unknown),
        }
    }

    // Why the end of a sender is refused: it is unknown, or a send of it lives.
    fn cause_of_end(&self, s: u64) -> Option<Stop>
        ensures is { result ≡ bounded_cause self.now.hall (EndSender s) }
        ensures tells { result ≢ Some Stop.NoMemory }
    {
        match self.senders.get(s) {
            Some(sender) => borrowed_if(sender.sends > 0),
            None => Some(Stop::Unknown),
        }
    }

    // Makes a channel with room for `capacity` messages, with a sender and a receiver. On an error nothing has changed.
    fn make(&mut self, number: u64, capacity: u64, ready: &mut Ready<u64>) -> Result<Reply, Stop>
        requires next { self.old.next ≤ number }
        ensures { BoundedActs self.old number (Make capacity) result self.new ready.old ready.new }
    {
        if capacity == 0 {
            return Err(Stop::Zero);
        }
        let Ok(core) = BoundedCore::new(self.alloc, capacity as usize) else {
            return Err(Stop::NoMemory);
        };
        self.place(number, BoundedEntry::new(core), capacity, ready)
    }

    // Puts a new channel, with a sender and a receiver.
    fn place(
        &mut self,
        number: u64,
        entry: BoundedEntry,
        capacity: u64,
        ready: &mut Ready<u64>,
    ) -> Result<Reply, Stop>
        requires next { self.old.next ≤ number }
        requires some { 0 < capacity }
        requires new { entry ≡ record { queued = []; capacity = capacity; senders = 1; ended = false; waker = None; waiting = no_senders; wakes = [] } }
        ensures { BoundedActs self.old number (Make capacity) result self.new ready.old ready.new }
    {
        // That the registered wakers have a number that fits is known by a look at it.
        let _registered = ready.registered();
        let sender = SenderEntry {
            channel: number,
            sends: 0,
        };
        let Ok(()) = self.senders.insert(number, sender) else {
            return Err(Stop::NoMemory);
        };
        let receiver = ReceiverEntry {
            channel: number,
            polls: true,
        };
        let Ok(()) = self.receivers.insert(number, receiver) else {
            let _ = self.senders.remove(number);
            return Err(Stop::NoMemory);
        };
        let Ok(()) = self.channels.insert(number, entry) else {
            let _ = self.senders.remove(number);
            let _ = self.receivers.remove(number);
            return Err(Stop::NoMemory);
        };
        self.next = number as u128 + 1;
        Ok(Reply(Word::Made))
    }

    // Makes a further sender. On an error nothing has changed.
    fn copy(&mut self, number: u64, s: u64, ready: &mut Ready<u64>) -> Result<Reply, Stop>
        requires next { self.old.next ≤ number }
        ensures { BoundedActs self.old number (CopySender s) result self.new ready.old ready.new }
    {
        // That the registered wakers have a number that fits is known by a look at it.
        let _registered = ready.registered();
        if let Some(stop) = self.cause_of_copy(s) {
            return Err(stop);
        }
        let channel = self.senders.at(s).channel;
        let Ok(()) = self
            .senders
            .insert(number, SenderEntry { channel, sends: 0 })
        else {
            return Err(Stop::NoMemory);
        };
        self.channels.at_mut(channel).add_sender();
        self.next = number as u128 + 1;
        Ok(Reply(Word::Made))
    }

    // Sends a message, where there is a place for it. It takes no memory.
    fn try_send(
        &mut self,
        number: u64,
        s: u64,
        message: u64,
        ready: &mut Ready<u64>,
    ) -> Result<Reply, Stop>
        requires next { self.old.next ≤ number }
        requires room { registered self.old.hall ≤ ready.old.registered }
        ensures { BoundedActs self.old number (TrySend s message) result self.new ready.old ready.new }
    {
        let Some(sender) = self.senders.get(s) else {
            return Err(Stop::Unknown);
        };
        let sent = self
            .channels
            .at_mut(sender.channel)
            .try_send(message, ready);
        self.next = number as u128 + 1;
        Ok(tried_told(sent))
    }

    // Makes a send that may wait. On an error nothing has changed.
    fn begin(
        &mut self,
        number: u64,
        s: u64,
        message: u64,
        ready: &mut Ready<u64>,
    ) -> Result<Reply, Stop>
        requires next { self.old.next ≤ number }
        ensures { BoundedActs self.old number (BeginSend s message) result self.new ready.old ready.new }
    {
        // That the registered wakers have a number that fits is known by a look at it.
        let _registered = ready.registered();
        let Some(sender) = self.senders.get_mut(s) else {
            return Err(Stop::Unknown);
        };
        let send = SendEntry::new(s, sender.channel, message);
        let Ok(()) = self.sends.insert(number, send) else {
            return Err(Stop::NoMemory);
        };
        sender.sends += 1;
        self.next = number as u128 + 1;
        Ok(Reply(Word::Made))
    }

    // Polls a send. On an error nothing has changed.
    fn poll_send(
        &mut self,
        number: u64,
        f: u64,
        waker: u64,
        ready: &mut Ready<u64>,
    ) -> Result<Reply, Stop>
        requires next { self.old.next ≤ number }
        requires room { registered self.old.hall ≤ ready.old.registered }
        ensures { BoundedActs self.old number (PollSend f waker) result self.new ready.old ready.new }
    {
        let Some(send) = self.sends.get_mut(f) else {
            return Err(Stop::Unknown);
        };
        let s = send.sender();
        let entry = self.channels.at_mut(send.channel());
        let Ok(turn) = entry.poll_send(f, send, waker, ready) else {
            return Err(Stop::NoMemory);
        };
        self.next = number as u128 + 1;
        match turn {
            Poll::Pending => Ok(Reply(Word::Pending)),
            Poll::Ready(sent) => {
                let _ = self.sends.remove(f);
                self.senders.at_mut(s).sends -= 1;
                Ok(ready_told(sent))
            }
        }
    }

    // Ends a send. It takes no memory.
    fn end_send(&mut self, number: u64, f: u64, ready: &mut Ready<u64>) -> Result<Reply, Stop>
        requires next { self.old.next ≤ number }
        requires room { registered self.old.hall ≤ ready.old.registered }
        ensures { BoundedActs self.old number (EndSend f) result self.new ready.old ready.new }
    {
        let Some(send) = self.sends.take(f) else {
            return Err(Stop::Unknown);
        };
        let s = send.sender();
        self.channels.at_mut(send.channel()).end_send(send, ready);
        self.senders.at_mut(s).sends -= 1;
        self.next = number as u128 + 1;
        Ok(Reply(Word::Done))
    }

    // Takes the first message of a receiver. It takes no memory.
    fn receive(&mut self, number: u64, r: u64, ready: &mut Ready<u64>) -> Result<Reply, Stop>
        requires next { self.old.next ≤ number }
        requires room { registered self.old.hall ≤ ready.old.registered }
        ensures { BoundedActs self.old number (TryReceive r) result self.new ready.old ready.new }
    {
        let Some(receiver) = receiver_in(&self.receivers, r, true) else {
            return Err(Stop::Unknown);
        };
        let received = self.channels.at_mut(receiver.channel).receive(ready);
        self.next = number as u128 + 1;
        Ok(told(received))
    }

    // Polls a receiver. On an error nothing has changed.
    fn poll_receive(
        &mut self,
        number: u64,
        r: u64,
        waker: u64,
        ready: &mut Ready<u64>,
    ) -> Result<Reply, Stop>
        requires next { self.old.next ≤ number }
        requires room { registered self.old.hall ≤ ready.old.registered }
        ensures { BoundedActs self.old number (PollReceive r waker) result self.new ready.old ready.new }
    {
        let Some(receiver) = receiver_in(&self.receivers, r, true) else {
            return Err(Stop::Unknown);
        };
        let entry = self.channels.at_mut(receiver.channel);
        let Ok(received) = entry.poll_receive(r, waker, ready) else {
            return Err(Stop::NoMemory);
        };
        self.next = number as u128 + 1;
        Ok(poll_told(received))
    }

    // Ends a sender, which has no send. It takes no memory.
    fn end_sender(&mut self, number: u64, s: u64, ready: &mut Ready<u64>) -> Result<Reply, Stop>
        requires next { self.old.next ≤ number }
        requires room { registered self.old.hall ≤ ready.old.registered }
        ensures { BoundedActs self.old number (EndSender s) result self.new ready.old ready.new }
    {
        if let Some(stop) = self.cause_of_end(s) {
            return Err(stop);
        }
        let o = self.senders.remove(s).channel;
        let entry = self.channels.at_mut(o);
        entry.end_sender(ready);
        let over = entry.is_over();
        self.channels.remove_if(o, over);
        self.next = number as u128 + 1;
        Ok(Reply(Word::Done))
    }

    // Ends a receiver. It takes no memory.
    fn end_receiver(&mut self, number: u64, r: u64, ready: &mut Ready<u64>) -> Result<Reply, Stop>
        requires next { self.old.next ≤ number }
        requires room { registered self.old.hall ≤ ready.old.registered }
        ensures { BoundedActs self.old number (EndReceiver r) result self.new ready.old ready.new }
    {
        let Some(receiver) = receiver_in(&self.receivers, r, true) else {
            return Err(Stop::Unknown);
        };
        let _ = self.receivers.remove(r);
        let o = receiver.channel;
        let entry = self.channels.at_mut(o);
        entry.end_receiver(ready);
        let over = entry.is_over();
        self.channels.remove_if(o, over);
        self.next = number as u128 + 1;
        Ok(Reply(Word::Done))
    }
}

// What a script is told of a message that was tried.
fn tried_told(sent: Result<(), TrySendError<u64>>) -> Reply
    ensures { result ≡ tried_told sent }
{
    match sent {
        Ok(()) => Reply(Word::Accepted),
        Err(TrySendError::Full(message)) => Reply(Word::Full(message)),
        Err(TrySendError::Disconnected(message)) => Reply(Word::Closed(message)),
    }
}

// What a script is told of a send that has its answer.
fn ready_told(sent: Result<(), SendError<u64>>) -> Reply
    ensures { result ≡ ready_told sent }
{
    match sent {
        Ok(()) => Reply(Word::Accepted),
        Err(refused) => Reply(Word::Closed(refused.0)),
    }
}
