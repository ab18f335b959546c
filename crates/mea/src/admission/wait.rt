ghost use Rattle.std.specs.Prelude.{◌≡◌, ⊤, IfOk};

use crate::admission::permit::SharePermit;
use crate::admission::{FairShare, shared, steps};
use mea_base::{NoMemory, Poll, Wake};
use mea_share_core::{ShareAcquire, ShareFault, SharedKey};
use mea_wait::{End, Holds, PollFault, Polled, Unpolled, Waits};
use std::alloc::Global;
use std::hash::{BuildHasher, BuildHasherDefault, FoldHasher, Hash};
use std::marker::{Model, PhantomData};
use std::sync::{Arc, Wait};

/// A wait for a permit of a key. It must be polled to its end, or ended. A contract sees of it whose permit it asks for.
pub struct Admission<H, K, W, S> {
    of: H,
    // The permit's own share of the key, so that a poll that is ready needs no further one.
    key: SharedKey<K>,
    acquire: ShareAcquire<K>,
    kind: PhantomData<(W, S)>,
    ghost asks: { acquire.key ≡ key },
}

/// The future of `FairShare::acquire`.
pub type ShareWait<'a, K, W, S = BuildHasherDefault<FoldHasher>> = Admission<
    &'a FairShare<K, W, S>,
    K,
    W,
    S,
>;

/// The future of `FairShare::acquire_owned`.
pub type OwnedShareWait<K, W, S = BuildHasherDefault<FoldHasher>> = Admission<
    Arc<FairShare<K, W, S>>,
    K,
    W,
    S,
>;

impl<H, K, W, S> Model for Admission<H, K, W, S> {
    ghost Value = { K };

    ghost coded = { K.code };

    ghost view = { λ a. a.key };
}

impl<K: Eq + Hash + Drop, W: Wake, S: BuildHasher + Drop, H: Holds<FairShare<K, W, S>>> Admission<
    H,
    K,
    W,
    S,
> {
    // A wait that was never polled.
    pub(super) fn of(of: H, alloc: Global, key: K) -> Result<Self, NoMemory>
        ensures { IfOk result (λ wait. wait ≡ key) }
    {
        let key = shared(alloc, key)?;
        let acquire = ShareAcquire::new(key.share()?);
        Ok(Admission {
            of,
            key,
            acquire,
            kind: PhantomData,
        })
    }
}

impl<K: Eq + Hash + Drop, W: Wake, S: BuildHasher + Drop, H: Holds<FairShare<K, W, S>>> End
    for Admission<H, K, W, S> {
    fn end<R: Wait>(self, rt: &R) {
        let Admission {
            of,
            key: _,
            acquire,
            kind: _,
        } = self;
        let share = of.held();
        let made = steps::cancel(&mut *share.core.lock(rt), acquire);
        share.wake(rt, made);
    }
}

impl<K: Eq + Hash + Drop, W: Wake, S: BuildHasher + Drop, H: Holds<FairShare<K, W, S>>> Waits<
    W,
    SharePermit<H, K, W, S>,
> for Admission<H, K, W, S> {
    ghost gives = { λ wait permit. permit ≡ wait };

    ghost refuses = { λ _. ⊤ };

    ghost hands_back = { λ given back. back ≡ given };

    fn poll<R: Wait>(
        self,
        rt: &R,
        waker: W,
    ) -> Result<Polled<Self, SharePermit<H, K, W, S>>, Unpolled<Self, W>> {
        let Admission {
            of,
            key,
            mut acquire,
            kind,
        } = self;
        let answer = of.held().core.lock(rt).poll_checked(&mut acquire, waker);
        match answer {
            Ok(Poll::Ready(())) => Ok(Polled::Ready(SharePermit::of(of, key))),
            Ok(Poll::Pending) => Ok(Polled::Pending(Admission {
                of,
                key,
                acquire,
                kind,
            })),
            Err(ShareFault::NoMemory(waker)) => {
                let future = Admission {
                    of,
                    key,
                    acquire,
                    kind,
                };
                Err(Unpolled::no_memory(future, waker))
            }
            Err(ShareFault::Overflow(waker)) => Err(Unpolled {
                future: Admission {
                    of,
                    key,
                    acquire,
                    kind,
                },
                waker: Some(waker),
                fault: PollFault::Overflow,
            }),
        }
    }
}
