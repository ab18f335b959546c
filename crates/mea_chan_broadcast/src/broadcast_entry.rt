ghost use Rattle.std.specs.Prelude.{◌≡◌, ◌≢◌, ◌+◌, ◌<◌, ◌≤◌, ◌++◌, [], length, map, true, IfOk, OnErr};
ghost use Rattle.mea_sets.specs.WaitSet.{has_given};
ghost use Rattle.mea_broadcast_core.specs.Broadcast.{after_send, without_sender};
ghost use Rattle.mea_broadcast_core.specs.Receives.{found};
ghost use Rattle.mea_chan_model.specs.Broadcasts.{is_over};
ghost use Rattle.mea_chan_broadcast.specs.BroadcastCores.{HandsOn, IsPolled, Polls, kept_by, handed_on, heard_told, moved_to};
ghost use Rattle.mea_chan_broadcast.specs.BroadcastParts.{broadcast_seen};

use mea_base::{NoMemory, Poll, Ready};
use mea_broadcast_core::{BroadcastCore, BroadcastRecv, BroadcastTry, Cursor, RecvWait};
use mea_by_name::NamedWaker;
use mea_family::{Reply, Word};

/// What a hall keeps of a broadcast channel.
#[derive(Drop)]
pub struct BroadcastEntry {
    /// Its wakers carry the names of their futures.
    pub core: BroadcastCore<u64, NamedWaker>,
    /// How many receivers it has.
    pub receivers: u128,
}

impl BroadcastEntry {
    /// Whether no sender and no receiver is left. It takes no memory.
    pub fn is_over(&self) -> bool
        ensures { result ≡ is_over (broadcast_seen self.now) }
    {
        self.core.senders() == 0 && self.receivers == 0
    }

    // Hands on the wakers that the core has ready, and counts those that it keeps, which were `before`.
    fn settle(&mut self, before: usize, ready: &mut Ready<u64>)
        requires fits { kept_by self.old.core + length self.old.core.wakes ≤ before }
        requires room { before ≤ ready.old.registered }
        ensures entry { self.new ≡ record self.old { core = handed_on self.old.core } }
        ensures wakers { ready.new.wakers ≡ ready.old.wakers ++ map (λ k. k.waker) self.old.core.wakes }
        ensures counted { ready.new.registered + before ≡ ready.old.registered + kept_by self.old.core }
    {
        let mut gone = before - self.core.registered();
        while let Some(next) = self.core.next_wake() {
            ready.wake(next.waker);
            gone -= 1;
        }
        ready.unregister(gone);
    }

    /// Sends a message to all receivers. It takes no memory.
    pub fn send(&mut self, message: u64, ready: &mut Ready<u64>)
        requires more { self.old.core.tail ≢ u64.MAX }
        requires quiet { self.old.core.wakes ≡ [] }
        requires room { kept_by self.old.core ≤ ready.old.registered }
        ensures { HandsOn self.old (after_send self.old.core message) self.new ready.old ready.new }
    {
        let before = self.core.registered();
        let _ = self.core.send(message);
        self.settle(before, ready);
    }

    /// Ends a sender. It takes no memory.
    pub fn end_sender(&mut self, ready: &mut Ready<u64>)
        requires some { 0 < self.old.core.senders }
        requires quiet { self.old.core.wakes ≡ [] }
        requires room { kept_by self.old.core ≤ ready.old.registered }
        ensures { HandsOn self.old (without_sender self.old.core) self.new ready.old ready.new }
    {
        let before = self.core.registered();
        self.core.end_sender();
        self.settle(before, ready);
    }

    /// Receives at a cursor. On an error nothing has changed.
    pub fn hear(&self, cursor: &mut Cursor) -> Result<Reply, NoMemory>
        requires { cursor.old.position ≤ self.now.core.tail }
        ensures answer { IfOk result (λ answer. answer ≡ heard_told self.now.core (found self.now.core cursor.old.position)) }
        ensures cursor { IfOk result (λ _. cursor.new.position ≡ moved_to self.now.core (found self.now.core cursor.old.position) cursor.old.position) }
        ensures err { OnErr result (cursor.new ≡ cursor.old) }
    {
        match self.core.try_recv(cursor) {
            Ok(message) => Ok(Reply(Word::Got(message))),
            Err(BroadcastTry::Lagged(missed)) => Ok(Reply(Word::Lagged(missed))),
            Err(BroadcastTry::Empty) => Ok(Reply(Word::Empty)),
            Err(BroadcastTry::Disconnected) => Ok(Reply(Word::Gone)),
            Err(BroadcastTry::NoMemory) => Err(NoMemory),
        }
    }

    // Polls a receive at the core, and answers as a script does.
    fn poll_core(
        &mut self,
        cursor: &mut Cursor,
        wait: &mut RecvWait,
        waker: NamedWaker,
    ) -> Result<Reply, NoMemory>
        requires cursor { cursor.old.position ≤ self.old.core.tail }
        requires wait { has_given self.old.core.waiting wait.old ≡ true }
        ensures polls { IfOk result (λ answer. Polls self.old.core (found self.old.core cursor.old.position) cursor.old.position wait.old waker answer self.new.core cursor.new.position wait.new) }
        ensures count { IfOk result (λ _. (kept_by self.old.core ≤ kept_by self.new.core) × (kept_by self.new.core ≤ kept_by self.old.core + 1)) }
        ensures entry { self.new ≡ record self.old { core = self.new.core } }
        ensures err { OnErr result ((self.new ≡ self.old) × (cursor.new ≡ cursor.old) × (wait.new ≡ wait.old)) }
    {
        match self.core.poll_recv(cursor, wait, waker) {
            Ok(Poll::Ready(Ok(message))) => Ok(Reply(Word::Got(message))),
            Ok(Poll::Ready(Err(BroadcastRecv::Lagged(missed)))) => Ok(Reply(Word::Lagged(missed))),
            Ok(Poll::Ready(Err(BroadcastRecv::Disconnected))) => Ok(Reply(Word::Gone)),
            Ok(Poll::Pending) => Ok(Reply(Word::Pending)),
            Err(_) => Err(NoMemory),
        }
    }

    /// Polls a future. The waker is counted before it is registered, and no longer where it was not registered or took the
    /// place of an earlier one. On an error nothing has changed.
    pub fn poll(
        &mut self,
        cursor: &mut Cursor,
        wait: &mut RecvWait,
        waker: NamedWaker,
        ready: &mut Ready<u64>,
    ) -> Result<Reply, NoMemory>
        requires cursor { cursor.old.position ≤ self.old.core.tail }
        requires wait { has_given self.old.core.waiting wait.old ≡ true }
        requires room { kept_by self.old.core ≤ ready.old.registered }
        ensures polls { IfOk result (λ answer. IsPolled self.old.core (found self.old.core cursor.old.position) cursor.old.position wait.old waker answer self.new.core cursor.new.position wait.new ready.old ready.new) }
        ensures entry { self.new ≡ record self.old { core = self.new.core } }
        ensures err { OnErr result ((self.new ≡ self.old) × (cursor.new ≡ cursor.old) × (wait.new ≡ wait.old) × (ready.new ≡ ready.old)) }
    {
        let before = self.core.registered();
        ready.register()?;
        // The sum of those that wait and one more is at most this.
        let _registered = ready.registered();
        let Ok(answer) = self.poll_core(cursor, wait, waker) else {
            ready.unregister(1);
            return Err(NoMemory);
        };
        ready.unregister(before + 1 - self.core.registered());
        Ok(answer)
    }
}
