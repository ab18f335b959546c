ghost use Rattle.std.specs.Prelude.{Result};

use crate::inits::Settling;
use crate::play::Reply;
use crate::play::Reply::{Count, Done, Error, Pending};
use mea_base::{NoMemory, Poll};
use mea_once_core::{CellCore, FlightCore, Init, InitCall, KeyCall, MapCore};
use mea_test_support::{Collides, Plays, differs_at};
use std::alloc::Global;
use std::hash::BuildHasher;

/// How an initialiser answers.
#[derive(Clone, Copy)]
pub(crate) enum Manner {
    /// Its value, at its first poll.
    AtOnce(u64),
    /// An error, at each poll.
    Fails(u64),
    /// Never. It keeps each waker.
    Keeps,
    /// Once it is settled. It keeps the waker that it was last polled with.
    Settles,
}

/// An initialiser of a script.
#[derive(Drop)]
pub(crate) enum Scripted {
    AtOnce(u64),
    Fails(u64),
    Keeps(Vec<u64>),
    Settles(Settling),
}

impl Init<u64, u64, u64> for Scripted {
    ghost answers = { λ _ _ _ _. Unit {0} };

    fn poll(&mut self, waker: u64) -> Poll<Result<u64, u64>> {
        match self {
            Scripted::AtOnce(value) => Poll::Ready(Ok(*value)),
            Scripted::Fails(error) => Poll::Ready(Err(*error)),
            Scripted::Keeps(wakers) => {
                let _ = wakers.push(waker);
                Poll::Pending
            }
            Scripted::Settles(settling) => settling.poll(waker),
        }
    }
}

impl Scripted {
    fn new(alloc: Global, manner: Manner) -> Scripted {
        match manner {
            Manner::AtOnce(value) => Scripted::AtOnce(value),
            Manner::Fails(error) => Scripted::Fails(error),
            Manner::Keeps => Scripted::Keeps(Vec::new(alloc)),
            Manner::Settles => Scripted::Settles(Settling::new()),
        }
    }

    // How many wakers it has kept.
    fn kept(&self) -> usize {
        match self {
            Scripted::Keeps(wakers) => wakers.len(),
            _ => 0,
        }
    }

    // Settles it, and tells the waker that is to be called.
    fn settle(&mut self, end: Result<u64, u64>) -> Option<u64> {
        match self {
            Scripted::Settles(settling) => settling.settle(end),
            _ => None,
        }
    }
}

/// A call of what computes. Computations are told apart by the order in which they are made.
#[derive(Clone, Copy)]
pub(crate) enum Step {
    /// Asks for a key, of which a cell knows none.
    Ask(u64, Manner),
    Poll(usize, u64),
    Settle(usize, Result<u64, u64>),
    End(usize),
    /// How many wakers the initialiser has kept.
    Kept(usize),
    Remove(u64),
    Get(u64),
    Forget(u64),
    Wake,
}

/// What computes values with initialisers: a cell, a map or a group.
pub(crate) trait Computing: Drop {
    type Call: Drop;

    /// A call that was never polled.
    fn call(key: u64, init: Scripted) -> Self::Call;

    fn polled(&mut self, call: &mut Self::Call, waker: u64) -> Reply;

    fn ended(&mut self, call: Self::Call);

    fn kept(call: &Self::Call) -> usize;

    fn settled(call: &mut Self::Call, end: Result<u64, u64>) -> Option<u64>;

    /// A call by key alone, or a wake. None means want of memory, or what it does not do.
    fn reply(&mut self, step: Step) -> Option<Reply>;
}

/// What computes, and the calls that were made.
#[derive(Drop)]
pub(crate) struct Room<C: Computing> {
    alloc: Global,
    object: C,
    calls: Vec<Option<C::Call>>,
}

impl<C: Computing> Room<C> {
    pub(crate) fn new(alloc: Global, object: C) -> Room<C> {
        Room {
            alloc,
            object,
            calls: Vec::new(alloc),
        }
    }
}

pub(crate) type Script = &'static [(Step, Reply)];

/// The place of the first call of what computes that tells something else.
pub(crate) fn differs<C: Computing>(alloc: Global, object: C, script: Script) -> Option<usize> {
    differs_at(Room::new(alloc, object), script)
}

/// The same of a cell.
pub(crate) fn cell_differs(alloc: Global, script: Script) -> Option<usize> {
    differs(alloc, CellCore::new(alloc), script)
}

/// The same of a map.
pub(crate) fn map_differs(alloc: Global, script: Script) -> Option<usize> {
    differs(alloc, MapCore::with_hasher(alloc, Collides), script)
}

/// The same of a group.
pub(crate) fn group_differs(alloc: Global, script: Script) -> Option<usize> {
    differs(alloc, FlightCore::with_hasher(alloc, Collides), script)
}

impl<C: Computing> Plays for Room<C> {
    type Call = Step;

    type Reply = Reply;

    fn reply(&mut self, step: Step) -> Option<Reply> {
        match step {
            Step::Ask(key, manner) => {
                let call = C::call(key, Scripted::new(self.alloc, manner));
                self.calls.push(Some(call)).ok()?;
                Some(Done)
            }
            Step::Poll(place, waker) => {
                let call = self.calls.get_mut(place)?.as_mut()?;
                Some(self.object.polled(call, waker))
            }
            Step::End(place) => {
                self.object.ended(self.calls.get_mut(place)?.take()?);
                Some(Done)
            }
            Step::Kept(place) => Some(Count(C::kept(self.calls.get(place)?.as_ref()?))),
            Step::Settle(place, end) => {
                let call = self.calls.get_mut(place)?.as_mut()?;
                Some(Reply::found(C::settled(call, end)))
            }
            _ => self.object.reply(step),
        }
    }
}

impl Computing for CellCore<u64, u64> {
    type Call = InitCall<Scripted>;

    fn call(_key: u64, init: Scripted) -> InitCall<Scripted> {
        InitCall::new(init)
    }

    fn polled(&mut self, call: &mut InitCall<Scripted>, waker: u64) -> Reply {
        let polled: Result<Poll<Result<(), u64>>, (u64, NoMemory)> = self.poll_init_checked(
            call, waker,
        );
        match polled {
            Ok(Poll::Pending) => Pending,
            Ok(Poll::Ready(Err(error))) => Error(error),
            Ok(Poll::Ready(Ok(()))) => Reply::found(self.get().copied()),
            Err(_) => Reply::NoMemory,
        }
    }

    fn ended(&mut self, call: InitCall<Scripted>) {
        self.end_init_checked(call);
    }

    fn kept(call: &InitCall<Scripted>) -> usize {
        call.init.kept()
    }

    fn settled(call: &mut InitCall<Scripted>, end: Result<u64, u64>) -> Option<u64> {
        call.init.settle(end)
    }

    fn reply(&mut self, step: Step) -> Option<Reply> {
        match step {
            Step::Wake => Some(Reply::found(self.next_wake())),
            _ => None,
        }
    }
}

impl<S: BuildHasher + Drop> Computing for MapCore<u64, u64, S, u64> {
    type Call = KeyCall<u64, Scripted>;

    fn call(key: u64, init: Scripted) -> KeyCall<u64, Scripted> {
        KeyCall::new(key, init)
    }

    fn polled(&mut self, call: &mut KeyCall<u64, Scripted>, waker: u64) -> Reply {
        Reply::computed(self.poll_compute_checked(call, waker))
    }

    fn ended(&mut self, call: KeyCall<u64, Scripted>) {
        self.end_compute_checked(call);
    }

    fn kept(call: &KeyCall<u64, Scripted>) -> usize {
        call.call.init.kept()
    }

    fn settled(call: &mut KeyCall<u64, Scripted>, end: Result<u64, u64>) -> Option<u64> {
        call.call.init.settle(end)
    }

    fn reply(&mut self, step: Step) -> Option<Reply> {
        match step {
            Step::Remove(key) => Some(Reply::found(self.remove(&key).ok()?)),
            Step::Get(key) => Some(Reply::found(self.get(&key).ok()?)),
            Step::Wake => Some(Reply::found(self.next_wake())),
            _ => None,
        }
    }
}

impl<S: BuildHasher + Drop> Computing for FlightCore<u64, u64, S, u64> {
    type Call = KeyCall<u64, Scripted>;

    fn call(key: u64, init: Scripted) -> KeyCall<u64, Scripted> {
        KeyCall::new(key, init)
    }

    fn polled(&mut self, call: &mut KeyCall<u64, Scripted>, waker: u64) -> Reply {
        Reply::computed(self.poll_work_checked(call, waker))
    }

    fn ended(&mut self, call: KeyCall<u64, Scripted>) {
        self.end_work_checked(call);
    }

    fn kept(call: &KeyCall<u64, Scripted>) -> usize {
        call.call.init.kept()
    }

    fn settled(call: &mut KeyCall<u64, Scripted>, end: Result<u64, u64>) -> Option<u64> {
        call.call.init.settle(end)
    }

    fn reply(&mut self, step: Step) -> Option<Reply> {
        match step {
            Step::Forget(key) => {
                self.forget(&key);
                Some(Done)
            }
            Step::Wake => Some(Reply::found(self.next_wake())),
            _ => None,
        }
    }
}
