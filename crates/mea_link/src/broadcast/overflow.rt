//! A broadcast channel whose slow receivers lose the oldest messages, and hear how many: `mea::broadcast::overflow`.
ghost use Rattle.std.specs.Prelude.{◌≡◌, ◌-◌, ◌<◌, ◌≤◌, ◌↔◌, ◌^◌, length, Err, IsErr, OnOk, IfOk, IfErr};
ghost use Rattle.mea_broadcast_core.specs.Broadcast.{after_send, without_sender};
ghost use Rattle.mea_broadcast_core.specs.Receives.{Receives, found, usable_position};
ghost use Rattle.mea_link.specs.Positions.{MovesBy};

use mea_base::{NoMemory, Poll, Wake};
pub use mea_broadcast_core::{
    BroadcastFault, BroadcastRecv as RecvError, BroadcastTry as TryRecvError, SendRefused,
};
use mea_broadcast_core::{BroadcastCore, Cursor, RecvWait};
use mea_wait::{End, HandleFault, Polled, Unpolled, Waits, hand_out};
use std::alloc::Global;
use std::marker::Model;
use std::sync::{Arc, Mutex, Wait};

// What the ends of a channel share.
struct Shared<T, W> {
    core: Mutex<BroadcastCore<T, W>>,
}

// Written out: a derived one is proved anew in each crate that hands a value of this type to a generic function.
impl<T: Drop, W: Drop> Drop for Shared<T, W> {
    fn drop(self) {
        let Shared { core: _ } = self;
    }
}

/// An end that sends. It must be ended. It ports `mea::broadcast::overflow::Sender`.
pub struct Sender<T, W> {
    shared: Arc<Shared<T, W>>,
}

/// An end that receives all that is sent while it keeps up. A contract sees of it how many messages it has passed. It has
/// one place among those who wait, which each of its waits takes in turn, so however many are polled and ended before a
/// message comes, one waker is kept. It ports `mea::broadcast::overflow::Receiver`.
pub struct Receiver<T, W> {
    shared: Arc<Shared<T, W>>,
    cursor: Cursor,
    place: RecvWait,
}

impl<T, W> Model for Receiver<T, W> {
    ghost use Rattle.std.specs.Prelude.{ℕ};

    ghost Value = { ℕ };

    ghost view = { λ r. r.cursor.position };
}

// Written out: a derived one is proved anew in each crate that hands a value of this type to a generic function.
impl<T: Drop, W: Drop> Drop for Receiver<T, W> {
    fn drop(self) {
        let Receiver {
            shared: _,
            cursor: _,
            place: _,
        } = self;
    }
}

/// The future of `Receiver::recv`. It must be polled to its end, or ended; ended, its waker stays until the next
/// message or the first poll of the receiver's next wait.
pub struct Recv<'a, T, W> {
    of: &'a Shared<T, W>,
    cursor: &'a mut Cursor,
    place: &'a mut RecvWait,
}

/// A channel that keeps the last messages: as many as the least power of two that is at least `capacity`.
pub fn channel<T: Clone + Drop, W: Wake>(
    alloc: Global,
    capacity: usize,
) -> Result<(Sender<T, W>, Receiver<T, W>), BroadcastFault>
    requires { 0 < capacity }
    ensures overflow { (result ≡ Err BroadcastFault.Overflow) ↔ (2 ^ 63 < capacity) }
    ensures starts { IfOk result (λ ends. ends.1 ≡ 0) }
{
    let core = BroadcastCore::new(alloc, capacity)?;
    let cursor = core.subscribe();
    let Ok(shared) = Arc::new(
        alloc,
        Shared {
            core: Mutex::new(core),
        },
    ) else {
        return Err(BroadcastFault::NoMemory);
    };
    let Ok(other) = Arc::try_clone(&shared) else {
        return Err(BroadcastFault::NoMemory);
    };
    let receiver = Receiver::new(other, cursor);
    Ok((Sender { shared }, receiver))
}

// Sends, in one step under the lock. It tells how many wakers that made ready.
fn send<T: Clone + Drop, W: Drop>(
    core: &mut BroadcastCore<T, W>,
    message: T,
) -> (Result<(), SendRefused<T>>, usize)
    ensures refused { IsErr result.0 ↔ (core.old.tail ≡ u64.MAX) }
    ensures ok { OnOk result.0 (core.new ≡ after_send core.old message) }
    ensures err { IfErr result.0 (λ e. (e.0 ≡ message) × (core.new ≡ core.old)) }
    ensures made { result.1 ≡ length core.new.wakes - length core.old.wakes }
{
    let before = core.wakes_ready();
    let answer = core.send(message);
    (answer, core.wakes_ready().saturating_sub(before))
}

// Receives at a cursor, which goes on as far as the answer tells.
#[tactic(auto, using(crate::proofs::Moves::moves))]
fn try_recv<T: Clone + Drop, W: Drop>(
    core: &BroadcastCore<T, W>,
    cursor: &mut Cursor,
) -> Result<T, TryRecvError>
    ensures receives { let position = usable_position core.now cursor.old.position in
        Receives T.is_clone T.is_infallible core.now (found core.now position) position result cursor.new.position }
    ensures moves { MovesBy result cursor.old.position cursor.new.position }
{
    core.try_recv_checked(cursor)
}

// A further cursor that has passed as many messages, or only those that were sent.
#[tactic(auto, using(crate::proofs::Moves::usable_is_below))]
fn copy<T: Clone + Drop, W: Drop>(core: &BroadcastCore<T, W>, cursor: &Cursor) -> Cursor
    ensures is { result.position ≡ usable_position core.now cursor.now.position }
    ensures below { result.position ≤ cursor.now.position }
{
    core.copy_checked(cursor)
}

// A sender ends, as above.
fn end_sender<T: Clone + Drop, W: Drop>(core: &mut BroadcastCore<T, W>) -> usize
    ensures allowed { 0 < core.old.senders → core.new ≡ without_sender core.old }
    ensures none { core.old.senders ≡ 0 → core.new ≡ core.old }
    ensures made { result ≡ length core.new.wakes - length core.old.wakes }
{
    let before = core.wakes_ready();
    core.end_sender_checked();
    core.wakes_ready().saturating_sub(before)
}

impl<T: Clone + Drop, W: Wake> Shared<T, W> {
    // Wakes as many as the step before has made ready.
    fn wake<R: Wait>(&self, rt: &R, made: usize) {
        hand_out(made, || self.core.lock(rt).next_wake());
    }
}

impl<T: Clone + Drop, W: Wake> Sender<T, W> {
    /// Sends a message to all receivers, and wakes those who wait for one. It is refused after 18446744073709551615
    /// messages, and then it comes back. It takes no memory.
    pub fn send<R: Wait>(&self, rt: &R, message: T) -> Result<(), SendRefused<T>>
        ensures { IfErr result (λ e. e.0 ≡ message) }
    {
        let (answer, made) = send(&mut *self.shared.core.lock(rt), message);
        self.shared.wake(rt, made);
        answer
    }

    /// A receiver of what is sent from now on. A further share may be refused.
    pub fn subscribe<R: Wait>(&self, rt: &R) -> Result<Receiver<T, W>, NoMemory> {
        let shared = Arc::try_clone(&self.shared)?;
        let cursor = shared.core.lock(rt).subscribe();
        Ok(Receiver::new(shared, cursor))
    }

    /// A further sender. It is refused at the greatest number, and where no further share can be had; then nothing has
    /// changed.
    pub fn clone_handle<R: Wait>(&self, rt: &R) -> Result<Self, HandleFault> {
        let shared = Arc::try_clone(&self.shared)?;
        let added = shared.core.lock(rt).add_sender_checked();
        added?;
        Ok(Sender { shared })
    }
}

impl<T, W> Receiver<T, W> {
    // A receiver that stands at this cursor and has not waited.
    fn new(shared: Arc<Shared<T, W>>, cursor: Cursor) -> Self
        ensures { result ≡ cursor.position }
    {
        Receiver {
            shared,
            cursor,
            place: RecvWait::new(),
        }
    }
}

impl<T: Clone + Drop, W: Wake> Receiver<T, W> {
    /// The next message, if there is one. Where messages were lost, it tells how many, and goes on at the oldest
    /// that is kept. Where a clone finds no memory, nothing has changed.
    pub fn try_recv<R: Wait>(&mut self, rt: &R) -> Result<T, TryRecvError>
        ensures { MovesBy result self.old self.new }
    {
        try_recv(&*self.shared.core.lock(rt), &mut self.cursor)
    }

    /// A wait for the next message. It takes no memory before its first poll.
    pub fn recv(&mut self) -> Recv<'_, T, W> {
        Recv {
            of: &*self.shared,
            cursor: &mut self.cursor,
            place: &mut self.place,
        }
    }

    /// A receiver of what is sent from now on. A further share may be refused.
    pub fn resubscribe<R: Wait>(&self, rt: &R) -> Result<Self, NoMemory> {
        let shared = Arc::try_clone(&self.shared)?;
        let cursor = shared.core.lock(rt).subscribe();
        Ok(Receiver::new(shared, cursor))
    }

    /// A receiver of what this one has yet to hear. A further share may be refused.
    pub fn clone_handle<R: Wait>(&self, rt: &R) -> Result<Self, NoMemory>
        ensures { IfOk result (λ copy. copy ≤ self.now) }
    {
        let shared = Arc::try_clone(&self.shared)?;
        let cursor = copy(&*shared.core.lock(rt), &self.cursor);
        Ok(Receiver::new(shared, cursor))
    }
}

impl<T: Clone + Drop, W: Wake> End for Sender<T, W> {
    fn end<R: Wait>(self, rt: &R) {
        let Sender { shared } = self;
        let made = end_sender(&mut *shared.core.lock(rt));
        shared.wake(rt, made);
    }
}

impl<T: Clone + Drop, W: Wake> End for Receiver<T, W> {
    fn end<R: Wait>(self, _rt: &R) {
        drop(self);
    }
}

impl<'a, T: Clone + Drop, W: Wake> End for Recv<'a, T, W> {
    fn end<R: Wait>(self, _rt: &R) {
        let Recv {
            of: _,
            cursor: _,
            place: _,
        } = self;
    }
}

impl<'a, T: Clone + Drop, W: Wake> Waits<W, Result<T, RecvError>> for Recv<'a, T, W> {
    fn poll<R: Wait>(
        self,
        rt: &R,
        waker: W,
    ) -> Result<Polled<Self, Result<T, RecvError>>, Unpolled<Self, W>> {
        let Recv { of, cursor, place } = self;
        let answer = of
            .core
            .lock(rt)
            .poll_recv_checked(&mut *cursor, &mut *place, waker);
        match answer {
            Ok(Poll::Ready(got)) => Ok(Polled::Ready(got)),
            Ok(Poll::Pending) => Ok(Polled::Pending(Recv { of, cursor, place })),
            Err((waker, NoMemory)) => Err(Unpolled::no_memory(Recv { of, cursor, place }, waker)),
        }
    }
}
