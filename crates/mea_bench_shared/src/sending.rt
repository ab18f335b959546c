//! Two tasks of one pool, of which one sends messages to the other through a bounded channel. It stands here for the kit's
//! tokio too.
use futures::executor::LocalPool;
use futures::task::{Context, Poll};
use futures::{Future, Sink, Stream, ready};
use mea::mpsc::{BoundedReceiver, BoundedSender, bounded};
use mea_bench_waits::Fault;
use mea_futures::{Bell, Feeding, Kept, Receiving, feed, receive};
use std::alloc::AllocGlobal;
use std::random::RandomSource;
use std::sync::Wait;
use std::sync::atomic::AtomicU64;
use std::sync::atomic::Ordering::SeqCst;
use tokio::sync::mpsc;

/// How many messages the channel holds.
const PLACES: usize = 64;

// A task that sends so many messages.
#[derive(Drop)]
struct Sends<'a, R: Wait> {
    sink: Feeding<'a, R, u64>,
    left: u64,
}

impl<'a, R: Wait> Future for Sends<'a, R> {
    type Output = ();

    fn poll(&mut self, cx: &mut Context<'_>) -> Poll<()> {
        while self.left > 0 {
            if ready!(self.sink.poll_ready(cx)).is_err() {
                return Poll::Ready(());
            }
            self.left -= 1;
            if self.sink.start_send(1).is_err() {
                return Poll::Ready(());
            }
        }
        let _ = ready!(self.sink.poll_flush(cx));
        Poll::Ready(())
    }
}

// A task that receives so many.
#[derive(Drop)]
struct Takes<'a, R: Wait> {
    stream: Receiving<'a, R, BoundedReceiver<u64, Bell>, u64>,
    left: u64,
    sum: &'a AtomicU64,
}

impl<'a, R: Wait> Future for Takes<'a, R> {
    type Output = ();

    fn poll(&mut self, cx: &mut Context<'_>) -> Poll<()> {
        let mut sum = 0u64;
        while self.left > 0 {
            match self.stream.poll_next(cx) {
                Poll::Ready(Some(message)) => sum = sum.wrapping_add(message),
                Poll::Ready(None) => break,
                Poll::Pending => {
                    self.sum.fetch_add(sum, SeqCst);
                    return Poll::Pending;
                }
            }
            self.left -= 1;
        }
        self.sum.fetch_add(sum, SeqCst);
        Poll::Ready(())
    }
}

// A task that sends, or one that receives.
#[derive(Drop)]
enum Exchange<'a, R: Wait> {
    Sends(Sends<'a, R>),
    Takes(Takes<'a, R>),
}

impl<'a, R: Wait> Future for Exchange<'a, R> {
    type Output = ();

    fn poll(&mut self, cx: &mut Context<'_>) -> Poll<()> {
        match self {
            Exchange::Sends(sends) => sends.poll(cx),
            Exchange::Takes(takes) => takes.poll(cx),
        }
    }
}

/// Messages go through a bounded channel from one task to another of its pool.
pub fn messages<R: Wait + RandomSource + AllocGlobal>(rt: &R, rounds: u64) -> Result<(), Fault> {
    let (sender, receiver) = bounded::<u64, Bell>(rt.alloc(), PLACES)?;
    let sender = Kept::new(rt, sender);
    let stream = receive(rt, rt.alloc(), receiver)?;
    let sum = AtomicU64::new(0);
    exchanges(rt, sender.get(), stream, &sum, rounds)?;
    if sum.load(SeqCst) == rounds {
        Ok(())
    } else {
        Err(Fault::Answer)
    }
}

// Runs both tasks to their ends.
fn exchanges<'a, R: Wait + RandomSource + AllocGlobal + 'a>(
    rt: &'a R,
    sender: &'a BoundedSender<u64, Bell>,
    stream: Receiving<'a, R, BoundedReceiver<u64, Bell>, u64>,
    sum: &'a AtomicU64,
    rounds: u64,
) -> Result<(), Fault> {
    let mut pool = LocalPool::new(rt)?;
    let spawner = pool.spawner()?;
    let sends = Exchange::Sends(Sends {
        sink: feed(rt, rt.alloc(), sender)?,
        left: rounds,
    });
    let takes = Exchange::Takes(Takes {
        stream,
        left: rounds,
        sum,
    });
    if spawner.spawn(sends).is_err() || spawner.spawn(takes).is_err() {
        return Err(Fault::NoMemory);
    }
    pool.run(rt);
    Ok(())
}

// The same task with the channel of tokio.
#[derive(Drop)]
struct TokioSends<'a> {
    sender: &'a mpsc::Sender<u64>,
    send: mpsc::SendMessage<'a, u64>,
    left: u64,
}

impl<'a> Future for TokioSends<'a> {
    ghost use Rattle.tokio.specs.Channels.{CanSend};

    type Output = ();

    ghost can_poll = { λ s. CanSend s.send };

    fn poll(&mut self, cx: &mut Context<'_>) -> Poll<()> {
        while self.left > 0 {
            if ready!(self.send.poll(cx)).is_err() {
                return Poll::Ready(());
            }
            self.left -= 1;
            self.send = self.sender.send(1);
        }
        Poll::Ready(())
    }
}

#[derive(Drop)]
struct TokioTakes<'a> {
    receiver: mpsc::Receiver<u64>,
    left: u64,
    sum: &'a AtomicU64,
}

impl<'a> Future for TokioTakes<'a> {
    type Output = ();

    fn poll(&mut self, cx: &mut Context<'_>) -> Poll<()> {
        let mut sum = 0u64;
        while self.left > 0 {
            match self.receiver.poll_recv(cx) {
                Poll::Ready(Some(message)) => sum = sum.wrapping_add(message),
                Poll::Ready(None) => break,
                Poll::Pending => {
                    self.sum.fetch_add(sum, SeqCst);
                    return Poll::Pending;
                }
            }
            self.left -= 1;
        }
        self.sum.fetch_add(sum, SeqCst);
        Poll::Ready(())
    }
}

// A task that sends, or one that receives.
#[derive(Drop)]
enum TokioExchange<'a> {
    Sends(TokioSends<'a>),
    Takes(TokioTakes<'a>),
}

impl<'a> Future for TokioExchange<'a> {
    ghost use Rattle.tokio.specs.Channels.{CanSend};
    ghost use Rattle.mea_bench_shared.specs.declared.sending.TokioExchange.TheVariants.{Sends, Takes};
    ghost use Rattle.std.specs.Prelude.{⊤};

    type Output = ();

    ghost can_poll = { elim [ Sends s ↦ CanSend s.send | Takes t ↦ ⊤ ] };

    fn poll(&mut self, cx: &mut Context<'_>) -> Poll<()> {
        match self {
            TokioExchange::Sends(sends) => sends.poll(cx),
            TokioExchange::Takes(takes) => takes.poll(cx),
        }
    }
}

/// The same with the channel of tokio.
pub fn tokio_messages<R: Wait + RandomSource + AllocGlobal>(
    rt: &R,
    rounds: u64,
) -> Result<(), Fault> {
    let (sender, receiver) = mpsc::channel::<u64>(rt.alloc(), PLACES)?;
    let sum = AtomicU64::new(0);
    tokio_exchanges(rt, &sender, receiver, &sum, rounds)?;
    if sum.load(SeqCst) == rounds {
        Ok(())
    } else {
        Err(Fault::Answer)
    }
}

fn tokio_exchanges<'a, R: Wait + RandomSource + AllocGlobal>(
    rt: &R,
    sender: &'a mpsc::Sender<u64>,
    receiver: mpsc::Receiver<u64>,
    sum: &'a AtomicU64,
    rounds: u64,
) -> Result<(), Fault> {
    let mut pool = LocalPool::new(rt)?;
    let spawner = pool.spawner()?;
    let sends = TokioExchange::Sends(TokioSends {
        sender,
        send: sender.send(1),
        left: rounds,
    });
    let takes = TokioExchange::Takes(TokioTakes {
        receiver,
        left: rounds,
        sum,
    });
    if spawner.spawn(sends).is_err() || spawner.spawn(takes).is_err() {
        return Err(Fault::NoMemory);
    }
    pool.run(rt);
    Ok(())
}
