//! Those of the crowd who send and receive.
ghost use Rattle.std.specs.Prelude.{IsSome, IfSome};

use crate::makes::{Makes, Member};
use crate::oneshots::Oneshots;
use crate::patience::Patience;
use crate::tasks::Drains;
use crate::tickets::{Kind, Ticket};
use futures::task::{Context, Poll};
use futures::{Future, Sink, Stream, ready};
use mea::broadcast::overflow;
use mea::mpsc::{BoundedReceiver, BoundedSender, UnboundedReceiver, UnboundedSender};
use mea::waitgroup;
use mea::waitgroup::WaitGroup;
use mea_futures::{Bell, Feeding, Kept, Lagged, Receiving, Waiting, feed, receive, wait};
use std::alloc::AllocGlobal;
use std::process::Abort;
use std::sync::Wait;
use std::sync::atomic::AtomicU64;
use std::sync::atomic::Ordering::SeqCst;

/// What they did.
#[derive(Drop)]
pub(crate) struct Channels {
    pub(crate) oneshots: Oneshots,
    sent: AtomicU64,
    taken: AtomicU64,
    said: AtomicU64,
    drained: AtomicU64,
    told: AtomicU64,
    // By listeners with patience, and by those who were given up.
    heard: AtomicU64,
    overheard: AtomicU64,
    // How many listeners have patience.
    listeners: AtomicU64,
}

impl Channels {
    /// Nothing yet.
    pub(crate) fn new() -> Self {
        Channels {
            oneshots: Oneshots::new(),
            sent: AtomicU64::new(0),
            taken: AtomicU64::new(0),
            said: AtomicU64::new(0),
            drained: AtomicU64::new(0),
            told: AtomicU64::new(0),
            heard: AtomicU64::new(0),
            overheard: AtomicU64::new(0),
            listeners: AtomicU64::new(0),
        }
    }

    /// How many oneshots were answered, and how many had an answer.
    pub(crate) fn answers(&self) -> (u64, u64) {
        self.oneshots.counts()
    }

    /// How many messages went into the bounded channel, and how many came out.
    pub(crate) fn bounded(&self) -> (u64, u64) {
        (self.sent.load(SeqCst), self.taken.load(SeqCst))
    }

    /// How many messages went into the unbounded channel, and how many came out.
    pub(crate) fn unbounded(&self) -> (u64, u64) {
        (self.said.load(SeqCst), self.drained.load(SeqCst))
    }

    /// How many messages were told to all, how many listeners have patience, and how many messages these heard.
    pub(crate) fn broadcast(&self) -> (u64, u64, u64) {
        let told = self.told.load(SeqCst);
        (told, self.listeners.load(SeqCst), self.heard.load(SeqCst))
    }
}

/// A task that sends a message, and has a handle of the group of those who send until it ends.
#[derive(Drop)]
pub(crate) struct Posts<'a, R: Wait> {
    sink: Feeding<'a, R, u64>,
    is_begun: bool,
    sent: &'a AtomicU64,
    handle: Kept<'a, R, WaitGroup<Bell>>,
}

impl<'a, R: Wait> Future for Posts<'a, R> {
    type Output = ();

    fn poll(&mut self, cx: &mut Context<'_>) -> Poll<()> {
        if ready!(self.sink.poll_ready(cx)).is_err() {
            return Poll::Ready(());
        }
        if !self.is_begun {
            self.is_begun = true;
            if self.sink.start_send(1).is_err() || ready!(self.sink.poll_flush(cx)).is_err() {
                return Poll::Ready(());
            }
        }
        self.sent.fetch_add(1, SeqCst);
        Poll::Ready(())
    }
}

/// A task that takes messages until there are none and all who send have ended.
#[derive(Drop)]
pub(crate) struct Takes<'a, S: Stream, F: Future> {
    stream: S,
    senders: Option<F>,
    taken: &'a AtomicU64,
}

impl<'a, S: Stream<Item = u64>, O: Drop, F: Future<Output = O>> Future for Takes<'a, S, F> {
    type Output = ();

    ghost can_poll = { λ t. S.can_poll t.stream × IfSome t.senders F.can_poll };

    fn poll(&mut self, cx: &mut Context<'_>) -> Poll<()> {
        match self.stream.poll_next(cx) {
            Poll::Ready(Some(_)) => {
                self.taken.fetch_add(1, SeqCst);
                return cx.yield_now();
            }
            Poll::Ready(None) => return Poll::Ready(()),
            Poll::Pending => {}
        }
        // What was sent before the last one ended is taken by a further poll.
        match self.senders.take() {
            Some(mut senders) => {
                if senders.poll(cx).is_ready() {
                    return cx.yield_now();
                }
                self.senders = Some(senders);
                Poll::Pending
            }
            None => Poll::Ready(()),
        }
    }
}

/// One that takes what comes from the bounded channel.
pub(crate) type TakesAll<'a, R> = Takes<
    'a,
    Receiving<'a, R, BoundedReceiver<u64, Bell>, u64>,
    Waiting<'a, R, waitgroup::Wait<Bell>, ()>,
>;

/// What those who send have a handle of, and what the one who takes has whole.
#[derive(Drop)]
pub(crate) struct Ends<'a, R: Wait> {
    pub(crate) senders: Kept<'a, R, WaitGroup<Bell>>,
    pub(crate) stream: Receiving<'a, R, BoundedReceiver<u64, Bell>, u64>,
}

/// Makes those who send to the bounded channel, and after them the one who takes what comes.
#[derive(Drop)]
pub(crate) struct Posting<'a, R: Wait> {
    pub(crate) rt: &'a R,
    pub(crate) channels: &'a Channels,
    pub(crate) sender: &'a BoundedSender<u64, Bell>,
    pub(crate) ends: Option<Ends<'a, R>>,
}

impl<'a, R: Wait + AllocGlobal + Abort> Posting<'a, R> {
    // One that sends and was never polled.
    fn posting(&self) -> Option<Posts<'a, R>> {
        let rt = self.rt;
        let channels = self.channels;
        let ends = self.ends.as_ref()?;
        let handle = ends.senders.get().clone_handle(rt).expect(rt, "memory");
        Some(Posts {
            sink: feed(rt, rt.alloc(), self.sender).expect(rt, "memory"),
            is_begun: false,
            sent: &channels.sent,
            handle: Kept::new(rt, handle),
        })
    }

    // The one that takes, and was never polled.
    fn taking(&mut self) -> Option<TakesAll<'a, R>>
        ensures { IfSome result (λ t. IfSome t.senders (λ senders. IsSome senders.wait)) }
    {
        let rt = self.rt;
        let channels = self.channels;
        let Ends { senders, stream } = self.ends.take()?;
        let senders = senders.into_inner().into_future(rt);
        let senders = wait(rt, rt.alloc(), senders).expect(rt, "memory");
        Some(Takes {
            stream,
            senders: Some(senders),
            taken: &channels.taken,
        })
    }
}

impl<'a, R: Wait + AllocGlobal + Abort> Makes<Member<Posts<'a, R>, TakesAll<'a, R>>>
    for Posting<'a, R> {
    fn make(&mut self, ticket: Ticket) -> Option<Member<Posts<'a, R>, TakesAll<'a, R>>> {
        match ticket.kind {
            Kind::Posts => Some(Member::First(self.posting()?)),
            Kind::Takes => Some(Member::Other(self.taking()?)),
            _ => None,
        }
    }
}

/// A task that sends a message which never waits.
#[derive(Drop)]
pub(crate) struct Says<'a, R: Wait> {
    rt: &'a R,
    speaker: Kept<'a, R, UnboundedSender<u64, Bell>>,
    said: &'a AtomicU64,
}

impl<'a, R: Wait> Future for Says<'a, R> {
    type Output = ();

    fn poll(&mut self, _cx: &mut Context<'_>) -> Poll<()> {
        if self.speaker.get().send(self.rt, 1).is_ok() {
            self.said.fetch_add(1, SeqCst);
        }
        Poll::Ready(())
    }
}

/// A task that sends a message to all who listen.
#[derive(Drop)]
pub(crate) struct Tells<'a, R: Wait> {
    rt: &'a R,
    hub: Kept<'a, R, overflow::Sender<u64, Bell>>,
    told: &'a AtomicU64,
}

impl<'a, R: Wait> Future for Tells<'a, R> {
    type Output = ();

    fn poll(&mut self, _cx: &mut Context<'_>) -> Poll<()> {
        if self.hub.get().send(self.rt, 1).is_ok() {
            self.told.fetch_add(1, SeqCst);
        }
        Poll::Ready(())
    }
}

/// One that takes what comes from the unbounded channel.
pub(crate) type Collects<'a, R> = Drains<'a, Receiving<'a, R, UnboundedReceiver<u64, Bell>, u64>>;

/// One that listens to what is told to all.
pub(crate) type Listens<'a, R> = Drains<
    'a,
    Receiving<'a, R, overflow::Receiver<u64, Bell>, Result<u64, Lagged>>,
>;

/// Makes those who send to the channel without bounds, and the one who takes what comes.
#[derive(Drop)]
pub(crate) struct Saying<'a, R: Wait> {
    pub(crate) rt: &'a R,
    pub(crate) channels: &'a Channels,
    pub(crate) speaker: Kept<'a, R, UnboundedSender<u64, Bell>>,
    pub(crate) stream: Option<Receiving<'a, R, UnboundedReceiver<u64, Bell>, u64>>,
}

impl<'a, R: Wait + AllocGlobal + Abort> Saying<'a, R> {
    // One that sends, with a sender of its own.
    fn saying(&self) -> Says<'a, R> {
        let rt = self.rt;
        let channels = self.channels;
        let speaker = self.speaker.get().clone_handle(rt).expect(rt, "memory");
        Says {
            rt,
            speaker: Kept::new(rt, speaker),
            said: &channels.said,
        }
    }
}

impl<'a, R: Wait + AllocGlobal + Abort> Makes<Member<Says<'a, R>, Collects<'a, R>>>
    for Saying<'a, R> {
    fn make(&mut self, ticket: Ticket) -> Option<Member<Says<'a, R>, Collects<'a, R>>> {
        match ticket.kind {
            Kind::Says => Some(Member::First(self.saying())),
            Kind::Collects => {
                let channels = self.channels;
                let stream = self.stream.take()?;
                let taken = &channels.drained;
                Some(Member::Other(Drains { stream, taken }))
            }
            _ => None,
        }
    }
}

/// Makes those who tell all, and those who listen.
#[derive(Drop)]
pub(crate) struct Telling<'a, R: Wait> {
    pub(crate) rt: &'a R,
    pub(crate) channels: &'a Channels,
    pub(crate) hub: Kept<'a, R, overflow::Sender<u64, Bell>>,
}

impl<'a, R: Wait + AllocGlobal + Abort> Telling<'a, R> {
    // One that sends a message to all, with a sender of its own.
    fn telling(&self) -> Tells<'a, R> {
        let rt = self.rt;
        let channels = self.channels;
        let hub = self.hub.get().clone_handle(rt).expect(rt, "memory");
        Tells {
            rt,
            hub: Kept::new(rt, hub),
            told: &channels.told,
        }
    }

    // One that listens, and hears all that is told from here on where it has patience.
    fn listening(&self, has_patience: bool) -> Listens<'a, R> {
        let rt = self.rt;
        let channels = self.channels;
        let receiver = self.hub.get().subscribe(rt).expect(rt, "memory");
        let stream = receive(rt, rt.alloc(), receiver).expect(rt, "memory");
        let taken = if has_patience {
            channels.listeners.fetch_add(1, SeqCst);
            &channels.heard
        } else {
            &channels.overheard
        };
        Drains { stream, taken }
    }
}

impl<'a, R: Wait + AllocGlobal + Abort> Makes<Member<Tells<'a, R>, Listens<'a, R>>>
    for Telling<'a, R> {
    fn make(&mut self, ticket: Ticket) -> Option<Member<Tells<'a, R>, Listens<'a, R>>> {
        match ticket.kind {
            Kind::Tells => Some(Member::First(self.telling())),
            Kind::Listens => {
                let has_patience = ticket.patience == Patience::Endless;
                Some(Member::Other(self.listening(has_patience)))
            }
            _ => None,
        }
    }
}
