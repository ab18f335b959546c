use crate::claim::{Claiming, Step};
use crate::computed::Computed;
use crate::keyed::claiming::flat;
use crate::keyed::keyed_core::KeyedCore;
use crate::keyed::{Keyed, clone_of, steps};
use crate::promise::Promise;
use mea_base::{NoMemory, Poll, Wake};
use mea_once_core::{KeyCall, Never};
use mea_wait::{End, PollFault, Polled, Unpolled, Waits};
use std::hash::Hash;
use std::sync::Wait;

/// A wait that has the value of a key, for which there was no memory: its next poll keeps or clones it. It must be polled
/// to its end, or ended; ended before the value was kept, it passes the turn on.
pub struct KeyFilling<'a, C, K, V, W> {
    of: &'a Keyed<C>,
    stage: FillingStage<K, V, W>,
}

// How far such a wait is.
enum FillingStage<K, V, W> {
    // It has the turn, and the value.
    Gives(KeyCall<K, Promise<Computed<V>, W>>, V),
    // The core has the value, and hands it out.
    Asks(KeyCall<K, Promise<Computed<V>, W>>),
    // The core has the value, of which a clone is to be made.
    Has(Computed<V>),
}

// What one try came to.
enum Tried<K, V, W> {
    There(V),
    Pending(FillingStage<K, V, W>),
    Refused(FillingStage<K, V, W>, Option<W>),
}

impl<C> Keyed<C> {
    // Gives the value of who has the turn.
    pub(super) fn fill<R: Wait, K: Eq + Hash + Drop, V: Clone + Drop, W: Wake>(
        &self,
        rt: &R,
        call: KeyCall<K, Promise<Computed<V>, W>>,
        value: V,
    ) -> Result<V, KeyFilling<'_, C, K, V, W>>
    where
        C: KeyedCore<K, V, W>,
    {
        match self.give(rt, call, value) {
            Tried::There(value) => Ok(value),
            Tried::Pending(stage) => Err(KeyFilling { of: self, stage }),
            Tried::Refused(stage, _) => Err(KeyFilling { of: self, stage }),
        }
    }

    // Keeps the value, gives it to the core, and clones what that hands out.
    fn give<R: Wait, K: Eq + Hash + Drop, V: Clone + Drop, W: Wake>(
        &self,
        rt: &R,
        call: KeyCall<K, Promise<Computed<V>, W>>,
        value: V,
    ) -> Tried<K, V, W>
    where
        C: KeyedCore<K, V, W>,
    {
        let mut call = call;
        match Computed::new(self.alloc, value) {
            Ok(kept) => {
                call.call.init.put(kept);
                self.ask(rt, call, None)
            }
            Err(value) => Tried::Refused(FillingStage::Gives(call, value), None),
        }
    }

    // Asks the core for the value that it was given.
    fn ask<R: Wait, K: Eq + Hash + Drop, V: Clone + Drop, W: Wake>(
        &self,
        rt: &R,
        call: KeyCall<K, Promise<Computed<V>, W>>,
        waker: Option<W>,
    ) -> Tried<K, V, W>
    where
        C: KeyedCore<K, V, W>,
    {
        let mut call = call;
        let (answer, made) = steps::poll(&mut *self.core.lock(rt), &mut call, waker);
        self.wake(rt, made);
        match answer {
            Ok(Poll::Ready(Ok(kept))) => copied(kept, None),
            Ok(Poll::Ready(Err(never))) => match never {},
            Ok(Poll::Pending) => Tried::Pending(FillingStage::Asks(call)),
            Err((waker, NoMemory)) => Tried::Refused(FillingStage::Asks(call), flat(waker)),
        }
    }
}

// A clone of the value, or want of memory with the value kept.
fn copied<K, V: Clone + Drop, W: Drop>(kept: Computed<V>, waker: Option<W>) -> Tried<K, V, W> {
    match clone_of(&kept) {
        Ok(value) => Tried::There(value),
        Err(NoMemory) => Tried::Refused(FillingStage::Has(kept), waker),
    }
}

impl<'a, C: KeyedCore<K, V, W>, K: Eq + Hash + Drop, V: Clone + Drop, W: Wake> End
    for KeyFilling<'a, C, K, V, W> {
    fn end<R: Wait>(self, rt: &R) {
        let KeyFilling { of, stage } = self;
        match stage {
            FillingStage::Gives(call, _) => of.abandon(rt, call),
            FillingStage::Asks(call) => of.abandon(rt, call),
            FillingStage::Has(_) => {}
        }
    }
}

impl<'a, C: KeyedCore<K, V, W>, K: Eq + Hash + Drop, V: Clone + Drop, W: Wake> Claiming<W, V, Never>
    for KeyFilling<'a, C, K, V, W> {
    fn poll_claim<R: Wait>(self, rt: &R, waker: W) -> Step<Self, Never, V, W> {
        let KeyFilling { of, stage } = self;
        let tried = match stage {
            FillingStage::Gives(call, value) => of.give(rt, call, value),
            FillingStage::Asks(call) => of.ask(rt, call, Some(waker)),
            FillingStage::Has(kept) => copied(kept, Some(waker)),
        };
        match tried {
            Tried::There(value) => Step::There(value),
            Tried::Pending(stage) => Step::Pending(KeyFilling { of, stage }),
            Tried::Refused(stage, waker) => Step::Refused(KeyFilling { of, stage }, waker),
        }
    }
}

impl<'a, C: KeyedCore<K, V, W>, K: Eq + Hash + Drop, V: Clone + Drop, W: Wake> Waits<W, V>
    for KeyFilling<'a, C, K, V, W> {
    fn poll<R: Wait>(self, rt: &R, waker: W) -> Result<Polled<Self, V>, Unpolled<Self, W>> {
        match self.poll_claim(rt, waker) {
            Step::There(value) => Ok(Polled::Ready(value)),
            Step::Mine(never, _) => match never {},
            Step::Pending(wait) => Ok(Polled::Pending(wait)),
            Step::Refused(future, waker) => Err(Unpolled {
                future,
                waker,
                fault: PollFault::NoMemory,
            }),
        }
    }
}
