ghost use Rattle.std.specs.Prelude.{◌≡◌, ◌-◌, ◌<◌, length, true, false, Some, IfSome, IfErr};
ghost use Rattle.mea_chan_core.specs.Bounded.{send_answer, after_send, recv_answer, after_recv, without_sender, without_receiver, PollsRecv, PollsSend, EndsSend};
ghost use Rattle.mea_chan_core.specs.Errors.{unsent};
ghost use Rattle.mea_link.specs.Back.{ComesBack};
ghost use Rattle.mea_sem_core.specs.Calls.{Belongs};
ghost use Rattle.mea_sem_core.specs.declared.acquire.Acquire.TheVariants.{New};

use crate::mpsc::{RecvError, SendError, TryRecvError, TrySendError};
use mea_base::{NoMemory, Poll, Wake};
use mea_chan_core::{BoundedCore, SendWait};
use mea_wait::{End, HandleFault, Holds, Polled, Unpolled, Waits, hand_out};
use std::alloc::Global;
use std::collections::VecDeque;
use std::marker::{Model, PhantomData};
use std::sync::{Arc, Mutex, Wait};

/// What the ends of a channel share.
pub struct Shared<T, W> {
    core: Mutex<BoundedCore<T, W>>,
}

// Written out: a derived one is proved anew in each crate that hands a value of this type to a generic function.
impl<T: Drop, W: Drop> Drop for Shared<T, W> {
    fn drop(self) {
        let Shared { core: _ } = self;
    }
}

/// An end that sends. It must be ended. It ports `mea::mpsc::BoundedSender`.
pub struct BoundedSender<T, W> {
    shared: Arc<Shared<T, W>>,
}

/// The end that receives. It must be ended. It ports `mea::mpsc::BoundedReceiver`.
pub struct BoundedReceiver<T, W> {
    shared: Arc<Shared<T, W>>,
}

/// A wait until a value is sent. It must be polled to its end, or ended; ended, its value is dropped where it was
/// not sent. A contract sees of it the value, while it has that.
pub struct Sending<H, T, W> {
    of: H,
    send: SendWait<T>,
    waker: PhantomData<W>,
}

impl<H, T, W> Model for Sending<H, T, W> {
    ghost use Rattle.std.specs.Prelude.{Option};
    ghost use Rattle.std.specs.Coded.{coded_option};

    ghost Value = { Option T };

    ghost coded = { coded_option T.code };

    ghost view = { λ s. s.send.value };
}

/// The future of `BoundedSender::send`.
pub type BoundedSend<'a, T, W> = Sending<&'a Shared<T, W>, T, W>;

/// The future of `BoundedReceiver::recv`. It must be polled to its end, or ended; ended, it has received nothing,
/// and its waker stays with the receiver.
pub struct BoundedRecv<'a, T, W> {
    of: &'a Shared<T, W>,
}

/// A channel that keeps at most `buffer` messages. It takes the memory that both ends share, and reserves the room of the
/// messages at once.
pub fn bounded<T: Drop, W: Wake>(
    alloc: Global,
    buffer: usize,
) -> Result<(BoundedSender<T, W>, BoundedReceiver<T, W>), NoMemory>
    requires { 0 < buffer }
{
    let core = Mutex::new(BoundedCore::new(alloc, buffer)?);
    let shared = Arc::new(alloc, Shared { core })?;
    let other = Arc::try_clone(&shared)?;
    Ok((BoundedSender { shared }, BoundedReceiver { shared: other }))
}

// Sends if there is a place, in one step under the lock. It tells how many wakers that made ready.
fn try_send<T: Drop, W: Drop>(
    core: &mut BoundedCore<T, W>,
    value: T,
) -> (Result<(), TrySendError<T>>, usize)
    ensures answer { result.0 ≡ send_answer core.old value }
    ensures after { core.new ≡ after_send core.old value }
    ensures made { result.1 ≡ length core.new.wakes - length core.old.wakes }
{
    let before = core.wakes_ready();
    let answer = core.try_send(value);
    (answer, core.wakes_ready().saturating_sub(before))
}

// Takes the first message, as above.
fn try_recv<T: Drop, W: Drop>(core: &mut BoundedCore<T, W>) -> (Result<T, TryRecvError>, usize)
    ensures answer { result.0 ≡ recv_answer core.old }
    ensures after { core.new ≡ after_recv core.old }
    ensures made { result.1 ≡ length core.new.wakes - length core.old.wakes }
{
    let before = core.wakes_ready();
    let answer = core.try_recv();
    (answer, core.wakes_ready().saturating_sub(before))
}

// Polls a receive, as above.
fn poll_recv<T: Drop, W: Drop>(
    core: &mut BoundedCore<T, W>,
    waker: W,
) -> (Result<Poll<Result<T, RecvError>>, (W, NoMemory)>, usize)
    ensures polls { PollsRecv core.old waker (recv_answer core.old) result.0 core.new }
    ensures made { result.1 ≡ length core.new.wakes - length core.old.wakes }
{
    let before = core.wakes_ready();
    let answer = core.poll_recv(waker);
    (answer, core.wakes_ready().saturating_sub(before))
}

// Polls a send, as above: a value that is not sent comes back, or stays with the send.
#[tactic(auto, using(crate::proofs::Back::comes_back))]
fn poll_send<T: Drop, W: Drop>(
    core: &mut BoundedCore<T, W>,
    send: &mut SendWait<T>,
    waker: W,
) -> (Result<Poll<Result<(), SendError<T>>>, (W, NoMemory)>, usize)
    ensures allowed { Belongs core.old.waiting send.old.acquire → PollsSend core.old send.old.value send.old.acquire waker result.0 core.new send.new.value send.new.acquire }
    ensures renewed { ¬ Belongs core.old.waiting send.old.acquire → PollsSend core.old send.old.value (New 1) waker result.0 core.new send.new.value send.new.acquire }
    ensures back { ComesBack send.old.value result.0 send.new.value }
    ensures made { result.1 ≡ length core.new.wakes - length core.old.wakes }
{
    let before = core.wakes_ready();
    if !core.poll_send_allowed(send) {
        send.renew();
    }
    let answer = core.poll_send(send, waker);
    (answer, core.wakes_ready().saturating_sub(before))
}

// Ends a send, as above. Its value is handed out where it was not sent, to be dropped outside the lock.
fn end_send<T: Drop, W: Drop>(core: &mut BoundedCore<T, W>, send: SendWait<T>) -> (Option<T>, usize)
    ensures value { result.0 ≡ send.value }
    ensures allowed { Belongs core.old.waiting send.acquire → EndsSend core.old send.acquire core.new }
    ensures refused { ¬ Belongs core.old.waiting send.acquire → core.new ≡ core.old }
    ensures made { result.1 ≡ length core.new.wakes - length core.old.wakes }
{
    let before = core.wakes_ready();
    let value = core.end_send_checked(send);
    (value, core.wakes_ready().saturating_sub(before))
}

// A sender ends, as above.
fn end_sender<T: Drop, W: Drop>(core: &mut BoundedCore<T, W>) -> usize
    ensures allowed { 0 < core.old.senders → core.new ≡ without_sender core.old }
    ensures none { core.old.senders ≡ 0 → core.new ≡ core.old }
    ensures made { result ≡ length core.new.wakes - length core.old.wakes }
{
    let before = core.wakes_ready();
    core.end_sender_checked();
    core.wakes_ready().saturating_sub(before)
}

// The receiver ends, as above. What was queued is handed out, to be dropped outside the lock.
fn end_receiver<T: Drop, W: Drop>(core: &mut BoundedCore<T, W>) -> (Option<VecDeque<T>>, usize)
    ensures allowed { core.old.ended ≡ false → core.new ≡ without_receiver core.old }
    ensures ended { core.old.ended ≡ true → core.new ≡ core.old }
    ensures queued { IfSome result.0 (λ queued. queued.items ≡ core.old.queued) }
    ensures made { result.1 ≡ length core.new.wakes - length core.old.wakes }
{
    let before = core.wakes_ready();
    let queued = core.end_receiver_checked();
    (queued, core.wakes_ready().saturating_sub(before))
}

impl<T: Drop, W: Wake> Shared<T, W> {
    // Wakes as many as the step before has made ready.
    fn wake<R: Wait>(&self, rt: &R, made: usize) {
        hand_out(made, || self.core.lock(rt).next_wake());
    }

    // Ends a send.
    fn abandon<R: Wait>(&self, rt: &R, send: SendWait<T>) {
        let (value, made) = end_send(&mut *self.core.lock(rt), send);
        self.wake(rt, made);
        drop(value);
    }
}

impl<T: Drop, W: Wake> BoundedSender<T, W> {
    /// A wait until the value is sent: a poll that finds a place sends it at once, and else it waits behind those who
    /// wait. Where the receiver has ended the value comes back. It takes no memory before its first poll.
    pub fn send(&self, value: T) -> BoundedSend<'_, T, W>
        ensures { result ≡ Some value }
    {
        Sending {
            of: &*self.shared,
            send: SendWait::new(value),
            waker: PhantomData,
        }
    }

    /// Sends the value if there is a place, past those who wait; else it comes back. It takes no memory.
    pub fn try_send<R: Wait>(&self, rt: &R, value: T) -> Result<(), TrySendError<T>>
        ensures { IfErr result (λ e. unsent e ≡ value) }
    {
        let (answer, made) = try_send(&mut *self.shared.core.lock(rt), value);
        self.shared.wake(rt, made);
        answer
    }

    /// A further sender. It is refused at the greatest number, and where no further share can be had; then nothing has
    /// changed.
    pub fn clone_handle<R: Wait>(&self, rt: &R) -> Result<Self, HandleFault> {
        let shared = Arc::try_clone(&self.shared)?;
        let added = shared.core.lock(rt).add_sender_checked();
        added?;
        Ok(BoundedSender { shared })
    }
}

impl<T: Drop, W: Wake> BoundedReceiver<T, W> {
    /// Takes the first message, if there is one; the first that waits to send has its place then. It takes no
    /// memory.
    pub fn try_recv<R: Wait>(&mut self, rt: &R) -> Result<T, TryRecvError> {
        let (answer, made) = try_recv(&mut *self.shared.core.lock(rt));
        self.shared.wake(rt, made);
        answer
    }

    /// A wait for the first message. It takes no memory before its first poll.
    pub fn recv(&mut self) -> BoundedRecv<'_, T, W> {
        BoundedRecv { of: &*self.shared }
    }
}

impl<T: Drop, W: Wake> End for BoundedSender<T, W> {
    fn end<R: Wait>(self, rt: &R) {
        let BoundedSender { shared } = self;
        let made = end_sender(&mut *shared.core.lock(rt));
        shared.wake(rt, made);
    }
}

impl<T: Drop, W: Wake> End for BoundedReceiver<T, W> {
    fn end<R: Wait>(self, rt: &R) {
        let BoundedReceiver { shared } = self;
        let (queued, made) = end_receiver(&mut *shared.core.lock(rt));
        shared.wake(rt, made);
        drop(queued);
    }
}

impl<T: Drop, W: Wake, H: Holds<Shared<T, W>>> End for Sending<H, T, W> {
    fn end<R: Wait>(self, rt: &R) {
        let Sending { of, send, waker: _ } = self;
        of.held().abandon(rt, send);
    }
}

impl<'a, T: Drop, W: Wake> End for BoundedRecv<'a, T, W> {
    fn end<R: Wait>(self, _rt: &R) {
        let BoundedRecv { of: _ } = self;
    }
}

impl<T: Drop, W: Wake, H: Holds<Shared<T, W>>> Waits<W, Result<(), SendError<T>>>
    for Sending<H, T, W> {
    ghost gives = { λ send sent. IfErr sent (λ e. send ≡ Some e.0) };

    fn poll<R: Wait>(
        self,
        rt: &R,
        waker: W,
    ) -> Result<Polled<Self, Result<(), SendError<T>>>, Unpolled<Self, W>> {
        let Sending {
            of,
            mut send,
            waker: kind,
        } = self;
        let (answer, made) = poll_send(&mut *of.held().core.lock(rt), &mut send, waker);
        of.held().wake(rt, made);
        let waker = kind;
        match answer {
            Ok(Poll::Ready(sent)) => Ok(Polled::Ready(sent)),
            Ok(Poll::Pending) => Ok(Polled::Pending(Sending { of, send, waker })),
            Err((back, NoMemory)) => Err(Unpolled::no_memory(Sending { of, send, waker }, back)),
        }
    }
}

impl<'a, T: Drop, W: Wake> Waits<W, Result<T, RecvError>> for BoundedRecv<'a, T, W> {
    fn poll<R: Wait>(
        self,
        rt: &R,
        waker: W,
    ) -> Result<Polled<Self, Result<T, RecvError>>, Unpolled<Self, W>> {
        let BoundedRecv { of } = self;
        let (answer, made) = poll_recv(&mut *of.core.lock(rt), waker);
        of.wake(rt, made);
        match answer {
            Ok(Poll::Ready(got)) => Ok(Polled::Ready(got)),
            Ok(Poll::Pending) => Ok(Polled::Pending(BoundedRecv { of })),
            Err((waker, NoMemory)) => Err(Unpolled::no_memory(BoundedRecv { of }, waker)),
        }
    }
}
