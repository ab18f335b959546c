ghost use Rattle.std.specs.Prelude.{ℕ, ◌≡◌, ◌≢◌, ◌≤◌, ◌<◌, IfOk, IfErr, IfSome, IfNone, is_some, None, Some, true, false, if◌then◌else◌};
ghost use Rattle.std.specs.FinMap as map;
ghost use Rattle.mea_family.specs.Family.{is_pending};
ghost use Rattle.mea_family.specs.Play.{PartRests};
ghost use Rattle.std.specs.Int.{IsNextPowerOfTwo};
ghost use Rattle.mea_broadcast_core.specs.Broadcast.{IsFresh};
ghost use Rattle.mea_chan_model.specs.Broadcasts.{Broadcast, join, no_broadcasts, is_broadcast, is_sender, is_hearing, registered};
ghost use Rattle.mea_chan_model.specs.declared.broadcast_action.BroadcastAction.TheVariants.{Make, CopySender, SendAll, EndSender, Subscribe, Resubscribe, CopyReceiver, Hear, EndReceiver, BeginHear, PollHear, EndHear};
ghost use Rattle.mea_chan_model.specs.BroadcastActions.{broadcast_cause, broadcast_act, unusable};
ghost use Rattle.mea_chan_broadcast.specs.Actions.{BroadcastActs, BroadcastActsQuietly};
ghost use Rattle.mea_chan_broadcast.specs.BroadcastLends.{StandsForBroadcast};

use crate::broadcast_entry::BroadcastEntry;
use crate::listener_entry::ListenerEntry;
use crate::recv_entry::RecvEntry;
use mea_base::Ready;
use mea_broadcast_core::{BroadcastCore, Cursor, RecvWait};
use mea_by_name::{ByName, NamedWaker};
use mea_chan_model::BroadcastAction;
use mea_family::{Reply, Stop, Word, borrowed_if, overflow_if, unknown_unless};
use std::alloc::Global;
use std::marker::Model;

/// The broadcast channels with their senders, receivers and futures, each by the number of the event that made it. Each
/// call costs a few look-ups by name and the wakers that it makes ready.
#[derive(Drop)]
pub struct BroadcastPart {
    channels: ByName<BroadcastEntry>,
    // The channel of each sender.
    senders: ByName<u64>,
    receivers: ByName<ListenerEntry>,
    futures: ByName<RecvEntry>,
    // The least number that the next event may have, which may be 2^64.
    next: u128,
    alloc: Global,
}

impl Model for BroadcastPart {
    ghost use Rattle.mea_family.specs.Play.{Part, part_code};
    ghost use Rattle.mea_chan_model.specs.Broadcasts.{Broadcasts, broadcasts_code};

    ghost Value = { Part Broadcasts };

    ghost coded = { part_code broadcasts_code };

    ghost use Rattle.mea_chan_broadcast.specs.BroadcastParts.{broadcasts_seen, AreKeptBroadcasts};

    ghost view = { λ a. record { hall = broadcasts_seen a.channels a.senders a.receivers a.futures; next = a.next } };

    ghost invariant = { λ a. AreKeptBroadcasts a.channels a.senders a.receivers a.futures a.next };
}

impl BroadcastPart {
    /// No channel. It takes no memory.
    pub fn new(alloc: Global) -> Self
        ensures { result ≡ record { hall = no_broadcasts; next = 0 } }
    {
        BroadcastPart {
            channels: ByName::new(alloc),
            senders: ByName::new(alloc),
            receivers: ByName::new(alloc),
            futures: ByName::new(alloc),
            next: 0,
            alloc,
        }
    }

    /// The core of a channel of which a sender or a receiver lives. It takes no memory.
    pub fn core(&self, o: u64) -> Option<&BroadcastCore<u64, NamedWaker>>
        ensures there { is_some result ≡ is_broadcast self.now.hall o }
        ensures stands { IfSome result (λ core. StandsForBroadcast self.now.hall o core.now) }
    {
        let entry = self.channels.get(o)?;
        Some(&entry.core)
    }

    /// Why an action is refused; None where it is not. It takes no memory.
    pub fn cause(&self, action: BroadcastAction) -> Option<Stop>
        ensures { result ≡ broadcast_cause self.now.hall action }
    {
        match action {
            BroadcastAction::Make(n) => cause_of_size(n),
            BroadcastAction::CopySender(s) => self.cause_of_copy(s),
            BroadcastAction::SendAll(s, _) => self.cause_of_send(s),
            BroadcastAction::EndSender(s) | BroadcastAction::Subscribe(s) => unknown_unless(
                self.senders.has(s),
            ),
            BroadcastAction::Resubscribe(r) | BroadcastAction::CopyReceiver(r) => self.cause_of_use(
                r,
            ),
            BroadcastAction::Hear(r) | BroadcastAction::EndReceiver(r) => self.cause_of_use(r),
            BroadcastAction::BeginHear(r) => self.cause_of_use(r),
            BroadcastAction::PollHear(f, _) | BroadcastAction::EndHear(f) => unknown_unless(
                self.is_future(f),
            ),
        }
    }

    /// Does an action, or finds why it is refused. On an error nothing has changed.
    pub fn act(
        &mut self,
        number: u64,
        action: BroadcastAction,
        ready: &mut Ready<u64>,
    ) -> Result<Reply, Stop>
        requires next { self.old.next ≤ number }
        requires room { registered self.old.hall ≤ ready.old.registered }
        ensures { BroadcastActs self.old number action result self.new ready.old ready.new }
    {
        match action {
            BroadcastAction::Make(n) => self.make(number, n),
            BroadcastAction::CopySender(s) => self.copy_sender(number, s),
            BroadcastAction::SendAll(s, message) => self.send(number, s, message, ready),
            BroadcastAction::EndSender(s) => self.end_sender(number, s, ready),
            BroadcastAction::Subscribe(s) => self.subscribe(number, s),
            BroadcastAction::Resubscribe(r) => self.resubscribe(number, r),
            BroadcastAction::CopyReceiver(r) => self.copy_receiver(number, r),
            BroadcastAction::Hear(r) => self.hear(number, r),
            BroadcastAction::EndReceiver(r) => self.end_receiver(number, r),
            BroadcastAction::BeginHear(r) => self.begin(number, r),
            BroadcastAction::PollHear(f, waker) => self.poll(number, f, waker, ready),
            BroadcastAction::EndHear(f) => self.end_future(number, f),
        }
    }

    fn is_future(&self, f: u64) -> bool
        ensures { result ≡ is_hearing self.now.hall f }
    {
        self.futures.has(f)
    }

    // Why a further sender is refused: the one beside it is unknown, or the channel has as many as it may have.
    fn cause_of_copy(&self, s: u64) -> Option<Stop>
        ensures is { result ≡ broadcast_cause self.now.hall (CopySender s) }
        ensures tells { result ≢ Some Stop.NoMemory }
    {
        match self.senders.get(s) {
            Some(o) => overflow_if(self.channels.at(*o).core.senders() == usize::MAX),
            None => Some(Stop::Unknown),
        }
    }

    // Why a message is refused: its sender is unknown, or the last position is taken.
    fn cause_of_send(&self, s: u64) -> Option<Stop>
        ensures { (message : ℕ) → result ≡ broadcast_cause self.now.hall (SendAll s message) }
    {
        match self.senders.get(s) {
            Some(o) => overflow_if(self.channels.at(*o).core.tail() == u64::MAX),
            None => Some(Stop::Unknown),
        }
    }

    // Why what is done by a receiver is refused: it is unknown, or a future uses it alone.
    fn cause_of_use(&self, r: u64) -> Option<Stop>
        ensures is { result ≡ unusable (map.get self.now.hall.receivers r) }
        ensures tells { result ≢ Some Stop.NoMemory }
    {
        match self.receivers.get(r) {
            Some(receiver) => borrowed_if(receiver.user.is_some()),
            None => Some(Stop::Unknown),
        }
    }

    // Makes a channel whose ring keeps `capacity` messages or more, with a sender and a receiver. On an error nothing has
    // changed.
    fn make(&mut self, number: u64, capacity: u64) -> Result<Reply, Stop>
        requires next { self.old.next ≤ number }
        ensures { BroadcastActsQuietly self.old number (Make capacity) result self.new }
    {
        if let Some(stop) = cause_of_size(capacity) {
            return Err(stop);
        }
        let Ok(core) = BroadcastCore::new(self.alloc, capacity as usize) else {
            return Err(Stop::NoMemory);
        };
        self.place(number, core, capacity)
    }

    // Puts a new core, with a sender and a receiver.
    fn place(
        &mut self,
        number: u64,
        core: BroadcastCore<u64, NamedWaker>,
        capacity: u64,
    ) -> Result<Reply, Stop>
        requires next { self.old.next ≤ number }
        requires new { IsFresh core 0 × IsNextPowerOfTwo capacity core.size }
        requires some { 0 < capacity }
        requires few { capacity ≤ 9223372036854775808 }
        ensures { BroadcastActsQuietly self.old number (Make capacity) result self.new }
    {
        let receiver = ListenerEntry {
            channel: number,
            cursor: core.subscribe(),
            user: None,
        };
        let Ok(()) = self.senders.insert(number, number) else {
            return Err(Stop::NoMemory);
        };
        let Ok(()) = self.receivers.insert(number, receiver) else {
            let _ = self.senders.remove(number);
            return Err(Stop::NoMemory);
        };
        let Ok(()) = self
            .channels
            .insert(number, BroadcastEntry { core, receivers: 1 })
        else {
            let _ = self.senders.remove(number);
            let _ = self.receivers.remove(number);
            return Err(Stop::NoMemory);
        };
        self.next = number as u128 + 1;
        Ok(Reply(Word::Made))
    }

    // Makes a further sender. On an error nothing has changed.
    fn copy_sender(&mut self, number: u64, s: u64) -> Result<Reply, Stop>
        requires next { self.old.next ≤ number }
        ensures { BroadcastActsQuietly self.old number (CopySender s) result self.new }
    {
        if let Some(stop) = self.cause_of_copy(s) {
            return Err(stop);
        }
        let o = *self.senders.at(s);
        let Ok(()) = self.senders.insert(number, o) else {
            return Err(Stop::NoMemory);
        };
        let _ = self.channels.at_mut(o).core.add_sender();
        self.next = number as u128 + 1;
        Ok(Reply(Word::Made))
    }

    // Sends a message to all receivers. It takes no memory.
    fn send(
        &mut self,
        number: u64,
        s: u64,
        message: u64,
        ready: &mut Ready<u64>,
    ) -> Result<Reply, Stop>
        requires next { self.old.next ≤ number }
        requires room { registered self.old.hall ≤ ready.old.registered }
        ensures { BroadcastActs self.old number (SendAll s message) result self.new ready.old ready.new }
    {
        let Some(o) = self.senders.get(s) else {
            return Err(Stop::Unknown);
        };
        let entry = self.channels.at_mut(*o);
        if entry.core.tail() == u64::MAX {
            return Err(Stop::Overflow);
        }
        entry.send(message, ready);
        self.next = number as u128 + 1;
        Ok(Reply(Word::Done))
    }

    // Ends a sender. It takes no memory.
    fn end_sender(&mut self, number: u64, s: u64, ready: &mut Ready<u64>) -> Result<Reply, Stop>
        requires next { self.old.next ≤ number }
        requires room { registered self.old.hall ≤ ready.old.registered }
        ensures { BroadcastActs self.old number (EndSender s) result self.new ready.old ready.new }
    {
        let Some(o) = self.senders.take(s) else {
            return Err(Stop::Unknown);
        };
        let entry = self.channels.at_mut(o);
        entry.end_sender(ready);
        let over = entry.is_over();
        self.channels.remove_if(o, over);
        self.next = number as u128 + 1;
        Ok(Reply(Word::Done))
    }

    // Makes a receiver of what is sent from now on, beside a sender. On an error nothing has changed.
    fn subscribe(&mut self, number: u64, s: u64) -> Result<Reply, Stop>
        requires next { self.old.next ≤ number }
        ensures { BroadcastActsQuietly self.old number (Subscribe s) result self.new }
    {
        let Some(o) = self.senders.get(s) else {
            return Err(Stop::Unknown);
        };
        let o = *o;
        let cursor = self.channels.at(o).core.subscribe();
        self.join(number, o, cursor)
    }

    // Makes a receiver of what is sent from now on, beside a receiver. On an error nothing has changed.
    fn resubscribe(&mut self, number: u64, r: u64) -> Result<Reply, Stop>
        requires next { self.old.next ≤ number }
        ensures { BroadcastActsQuietly self.old number (Resubscribe r) result self.new }
    {
        if let Some(stop) = self.cause_of_use(r) {
            return Err(stop);
        }
        let o = self.receivers.at(r).channel;
        let cursor = self.channels.at(o).core.subscribe();
        self.join(number, o, cursor)
    }

    // Makes a receiver that has passed the same messages. On an error nothing has changed.
    fn copy_receiver(&mut self, number: u64, r: u64) -> Result<Reply, Stop>
        requires next { self.old.next ≤ number }
        ensures { BroadcastActsQuietly self.old number (CopyReceiver r) result self.new }
    {
        if let Some(stop) = self.cause_of_use(r) {
            return Err(stop);
        }
        let receiver = self.receivers.at(r);
        let o = receiver.channel;
        let cursor = self.channels.at(o).core.copy(&receiver.cursor);
        self.join(number, o, cursor)
    }

    // Makes a receiver with this cursor.
    fn join(&mut self, number: u64, o: u64, cursor: Cursor) -> Result<Reply, Stop>
        requires next { self.old.next ≤ number }
        requires there { (c : Broadcast) × (map.get self.old.hall.channels o ≡ Some c) × (cursor.position ≤ c.tail) }
        ensures ok { IfOk result (λ answer. (c : Broadcast) → map.get self.old.hall.channels o ≡ Some c → PartRests registered self.old number (join self.old.hall number cursor.position o c) answer self.new) }
        ensures err { IfErr result (λ stop. (stop ≡ Stop.NoMemory) × (self.new ≡ self.old)) }
    {
        let receiver = ListenerEntry {
            channel: o,
            cursor,
            user: None,
        };
        let Ok(()) = self.receivers.insert(number, receiver) else {
            return Err(Stop::NoMemory);
        };
        self.channels.at_mut(o).receivers += 1;
        self.next = number as u128 + 1;
        Ok(Reply(Word::Made))
    }

    // Takes the next message of a receiver, if there is one. On an error nothing has changed.
    fn hear(&mut self, number: u64, r: u64) -> Result<Reply, Stop>
        requires next { self.old.next ≤ number }
        ensures { BroadcastActsQuietly self.old number (Hear r) result self.new }
    {
        let Some(receiver) = self.receivers.get_mut(r) else {
            return Err(Stop::Unknown);
        };
        if receiver.user.is_some() {
            return Err(Stop::Borrowed);
        }
        let Ok(answer) = self
            .channels
            .at(receiver.channel)
            .hear(&mut receiver.cursor)
        else {
            return Err(Stop::NoMemory);
        };
        self.next = number as u128 + 1;
        Ok(answer)
    }

    // Ends a receiver. It takes no memory.
    fn end_receiver(&mut self, number: u64, r: u64) -> Result<Reply, Stop>
        requires next { self.old.next ≤ number }
        ensures { BroadcastActsQuietly self.old number (EndReceiver r) result self.new }
    {
        if let Some(stop) = self.cause_of_use(r) {
            return Err(stop);
        }
        let o = self.receivers.remove(r).channel;
        let entry = self.channels.at_mut(o);
        entry.receivers -= 1;
        let over = entry.is_over();
        self.channels.remove_if(o, over);
        self.next = number as u128 + 1;
        Ok(Reply(Word::Done))
    }

    // Makes a future that uses a receiver alone. On an error nothing has changed.
    fn begin(&mut self, number: u64, r: u64) -> Result<Reply, Stop>
        requires next { self.old.next ≤ number }
        ensures { BroadcastActsQuietly self.old number (BeginHear r) result self.new }
    {
        let Some(receiver) = self.receivers.get_mut(r) else {
            return Err(Stop::Unknown);
        };
        if receiver.user.is_some() {
            return Err(Stop::Borrowed);
        }
        let future = RecvEntry {
            receiver: r,
            channel: receiver.channel,
            wait: RecvWait::new(),
        };
        let Ok(()) = self.futures.insert(number, future) else {
            return Err(Stop::NoMemory);
        };
        receiver.user = Some(number);
        self.next = number as u128 + 1;
        Ok(Reply(Word::Made))
    }

    // Polls a future, which is gone unless it waits. On an error nothing has changed.
    fn poll(
        &mut self,
        number: u64,
        f: u64,
        waker: u64,
        ready: &mut Ready<u64>,
    ) -> Result<Reply, Stop>
        requires next { self.old.next ≤ number }
        requires room { registered self.old.hall ≤ ready.old.registered }
        ensures { BroadcastActs self.old number (PollHear f waker) result self.new ready.old ready.new }
    {
        let waker = NamedWaker { name: f, waker };
        let Some(future) = self.futures.get_mut(f) else {
            return Err(Stop::Unknown);
        };
        let receiver = self.receivers.at_mut(future.receiver);
        let entry = self.channels.at_mut(future.channel);
        let Ok(answer) = entry.poll(&mut receiver.cursor, &mut future.wait, waker, ready) else {
            return Err(Stop::NoMemory);
        };
        let over = is_answered(&answer);
        receiver.user = user_unless(over, f);
        self.futures.remove_if(f, over);
        self.next = number as u128 + 1;
        Ok(answer)
    }

    // Ends a future; its waker stays. It takes no memory.
    fn end_future(&mut self, number: u64, f: u64) -> Result<Reply, Stop>
        requires next { self.old.next ≤ number }
        ensures { BroadcastActsQuietly self.old number (EndHear f) result self.new }
    {
        let Some(future) = self.futures.take(f) else {
            return Err(Stop::Unknown);
        };
        self.receivers.at_mut(future.receiver).user = None;
        self.next = number as u128 + 1;
        Ok(Reply(Word::Done))
    }
}

// Why a ring of this size is refused: it has no place, or more than it may have.
fn cause_of_size(size: u64) -> Option<Stop>
    ensures is { result ≡ broadcast_cause no_broadcasts (Make size) }
    ensures tells { result ≢ Some Stop.NoMemory }
    ensures fits { IfNone result ((0 < size) × (size ≤ 9223372036854775808)) }
{
    if size == 0 {
        Some(Stop::Zero)
    } else if size > 1 << 63 {
        Some(Stop::Overflow)
    } else {
        None
    }
}

// Whether a future has its answer.
fn is_answered(answer: &Reply) -> bool
    ensures { result ≡ (if is_pending answer.now then false else true) }
{
    !answer.is_pending()
}

// Who uses a receiver, unless that is over.
fn user_unless(over: bool, f: u64) -> Option<u64>
    ensures { result ≡ (if over then None else Some f) }
{
    if over { None } else { Some(f) }
}
