use crate::claim::{Claim, Claimed, Claiming, Step, told};
use crate::computed::Computed;
use crate::keyed::filling::KeyFilling;
use crate::keyed::keyed_core::KeyedCore;
use crate::keyed::{Keyed, clone_of, steps};
use crate::promise::Promise;
use mea_base::{NoMemory, Poll, Wake};
use mea_once_core::KeyCall;
use mea_wait::{End, Polled, Unpolled, Waits};
use std::hash::Hash;
use std::sync::Wait;

/// A wait for the value of a key, or for the turn to compute it. It must be polled to its end, or ended.
pub struct KeyClaiming<'a, C, K, V, W> {
    of: &'a Keyed<C>,
    stage: ClaimingStage<K, V, W>,
}

/// The turn to compute the value of a key. It must be spent: by `finish`, or by `end`, which passes the turn on.
pub struct KeyClaim<'a, C, K, V, W> {
    of: &'a Keyed<C>,
    call: KeyCall<K, Promise<Computed<V>, W>>,
}

// How far such a wait is.
enum ClaimingStage<K, V, W> {
    // It asks the core.
    Asks(KeyCall<K, Promise<Computed<V>, W>>),
    // It has the value, of which a clone found no memory.
    Has(Computed<V>),
}

impl<C> Keyed<C> {
    // A wait for the value of a key that was never polled.
    pub(crate) fn claiming<K: Eq + Hash + Drop, V: Clone + Drop, W: Wake>(
        &self,
        key: K,
    ) -> KeyClaiming<'_, C, K, V, W>
    where
        C: KeyedCore<K, V, W>,
    {
        KeyClaiming {
            of: self,
            stage: ClaimingStage::Asks(KeyCall::new(key, Promise::new())),
        }
    }

    // Ends a call. A value that it had not given, or that is there for it, is dropped with no lock held.
    pub(super) fn abandon<R: Wait, K: Eq + Hash + Drop, V: Drop, W: Wake>(
        &self,
        rt: &R,
        call: KeyCall<K, Promise<Computed<V>, W>>,
    )
    where
        C: KeyedCore<K, V, W>,
    {
        let mut call = call;
        let _kept = call.call.init.take();
        let (_there, made) = {
            let mut core = self.core.lock(rt);
            match steps::take(&mut *core, &mut call) {
                Some((there, taken)) => {
                    let ended = steps::end(&mut *core, call);
                    (Some(there), taken.saturating_add(ended))
                }
                None => (None, steps::end(&mut *core, call)),
            }
        };
        self.wake(rt, made);
    }
}

impl<'a, C: KeyedCore<K, V, W>, K: Eq + Hash + Drop, V: Clone + Drop, W: Wake> KeyClaim<
    'a,
    C,
    K,
    V,
    W,
> {
    /// Gives the value, wakes the next that waits for it, and has a clone of it. Where there is no memory to keep or to
    /// clone it, a wait comes back that has it and tries again.
    pub fn finish<R: Wait>(self, rt: &R, value: V) -> Result<V, KeyFilling<'a, C, K, V, W>> {
        let KeyClaim { of, call } = self;
        of.fill(rt, call, value)
    }
}

impl<'a, C: KeyedCore<K, V, W>, K: Eq + Hash + Drop, V: Clone + Drop, W: Wake> End
    for KeyClaiming<'a, C, K, V, W> {
    fn end<R: Wait>(self, rt: &R) {
        let KeyClaiming { of, stage } = self;
        match stage {
            ClaimingStage::Asks(call) => of.abandon(rt, call),
            ClaimingStage::Has(_) => {}
        }
    }
}

impl<'a, C: KeyedCore<K, V, W>, K: Eq + Hash + Drop, V: Clone + Drop, W: Wake> End
    for KeyClaim<'a, C, K, V, W> {
    fn end<R: Wait>(self, rt: &R) {
        let KeyClaim { of, call } = self;
        of.abandon(rt, call);
    }
}

impl<'a, C: KeyedCore<K, V, W>, K: Eq + Hash + Drop, V: Clone + Drop, W: Wake> Claim<
    V,
    V,
    KeyFilling<'a, C, K, V, W>,
> for KeyClaim<'a, C, K, V, W> {
    fn finish<R: Wait>(self, rt: &R, value: V) -> Result<V, KeyFilling<'a, C, K, V, W>> {
        KeyClaim::finish(self, rt, value)
    }
}

impl<'a, C: KeyedCore<K, V, W>, K: Eq + Hash + Drop, V: Clone + Drop, W: Wake> Claiming<
    W,
    V,
    KeyClaim<'a, C, K, V, W>,
> for KeyClaiming<'a, C, K, V, W> {
    fn poll_claim<R: Wait>(self, rt: &R, waker: W) -> Step<Self, KeyClaim<'a, C, K, V, W>, V, W> {
        let KeyClaiming { of, stage } = self;
        let mut call = match stage {
            ClaimingStage::Asks(call) => call,
            ClaimingStage::Has(kept) => return has(of, kept, Some(waker)),
        };
        let (answer, made) = steps::poll(&mut *of.core.lock(rt), &mut call, Some(waker));
        of.wake(rt, made);
        match answer {
            Ok(Poll::Ready(Ok(kept))) => has(of, kept, None),
            Ok(Poll::Ready(Err(never))) => match never {},
            Ok(Poll::Pending) => match call.call.init.take_waker() {
                Some(waker) => Step::Mine(KeyClaim { of, call }, waker),
                None => Step::Pending(KeyClaiming {
                    of,
                    stage: ClaimingStage::Asks(call),
                }),
            },
            Err((waker, NoMemory)) => Step::Refused(
                KeyClaiming {
                    of,
                    stage: ClaimingStage::Asks(call),
                },
                flat(waker),
            ),
        }
    }
}

// The value is there: a clone of it, or want of memory with the value kept.
fn has<'a, C, K, V: Clone + Drop, W: Drop>(
    of: &'a Keyed<C>,
    kept: Computed<V>,
    waker: Option<W>,
) -> Step<KeyClaiming<'a, C, K, V, W>, KeyClaim<'a, C, K, V, W>, V, W> {
    match clone_of(&kept) {
        Ok(value) => Step::There(value),
        Err(NoMemory) => Step::Refused(
            KeyClaiming {
                of,
                stage: ClaimingStage::Has(kept),
            },
            waker,
        ),
    }
}

// The waker that came back, if one did.
pub(super) fn flat<W>(waker: Option<Option<W>>) -> Option<W> {
    match waker {
        Some(waker) => waker,
        None => None,
    }
}

impl<'a, C: KeyedCore<K, V, W>, K: Eq + Hash + Drop, V: Clone + Drop, W: Wake> Waits<
    W,
    Claimed<V, KeyClaim<'a, C, K, V, W>>,
> for KeyClaiming<'a, C, K, V, W> {
    fn poll<R: Wait>(
        self,
        rt: &R,
        waker: W,
    ) -> Result<Polled<Self, Claimed<V, KeyClaim<'a, C, K, V, W>>>, Unpolled<Self, W>> {
        told(self.poll_claim(rt, waker))
    }
}
