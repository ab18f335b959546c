ghost use Rattle.std.specs.Prelude.{◌≡◌, Some, None, IsSome, IfOk, IfErr, MatchResult};
ghost use Rattle.std.specs.Borrow.{Lends, sem};
ghost use Rattle.mea_lock_core.specs.Then.{then_get};

use crate::access::{Access, Downgrades, Shows};
use mea_base::NoMemory;
use mea_lock_core::{Part, Then};
use mea_wait::End;
use std::marker::PhantomData;
use std::ops::{Deref, DerefMut};
use std::sync::Wait;

// A guard and a part of its value.
struct Shown<T, G, P> {
    guard: G,
    part: P,
    of: PhantomData<T>,
}

/// A guard that shows a part of the value that it locks, which is there. It must be ended, as the guard that
/// it was made from.
///
/// Through one of a guard that may write the part is written, where naming the part copies (`P: Copy`).
pub struct Mapped<T, G: Shows<T>, P: Part<T>> {
    at: Shown<T, G, P>,
    ghost there: { IsSome (P.get at.part (G.shown at.guard)) },
}

impl<T, G: Access<T>, P: Part<T> + Copy> Shown<T, G, P> {
    ghost use Rattle.mea_sync.specs.contracts.mapped.Shown.{the_row};

    fn shown(&mut self) -> &mut P::Out
        requires { IsSome (P.get self.old.part (G.shown self.old.guard)) }
        ensures* writes_back { sem 𝓛 (Lends (the_row T.row G.row P.row) P.Out.row self.entry result
            (λ y. record self.old { guard = G.with self.old.guard (P.put self.old.part (G.shown self.old.guard) y) })) }
        ensures value { P.get self.old.part (G.shown self.old.guard) ≡ Some result.now }
    {
        let part = self.part;
        show_part(self.guard.show_mut(), &part)
    }
}

// The part for writing of a value that has it.
fn show_part<'a, T, P: Part<T> + 'a>(whole: &'a mut T, part: &P) -> &'a mut P::Out
    requires { IsSome (P.get part.now whole.old) }
    ensures* writes_back { sem 𝓛 (Lends T.row P.Out.row whole.entry result (λ y. P.put part.now whole.old y)) }
    ensures value { P.get part.now whole.old ≡ Some result.now }
{
    match P::part_mut(whole, part) {
        Some(there) => there,
        None => unreachable!(),
    }
}

impl<T, G: Shows<T>, P: Part<T>> Mapped<T, G, P> {
    /// Shows a part that is there. It takes no memory.
    pub fn map(guard: G, part: P) -> Self
        requires { IsSome (P.get part (G.shown guard)) }
        ensures guard { result.at.guard ≡ guard }
        ensures part { result.at.part ≡ part }
    {
        Mapped {
            at: Shown {
                guard,
                part,
                of: PhantomData,
            },
        }
    }

    /// Shows the part, or hands both back exactly where it is not there. It takes no memory.
    pub fn filter_map(guard: G, part: P) -> Result<Self, (G, P)>
        ensures { MatchResult result
            (λ mapped. IsSome (P.get part (G.shown guard)) × (mapped.at.guard ≡ guard) × (mapped.at.part ≡ part))
            (λ back. (P.get part (G.shown guard) ≡ None) × (back.0 ≡ guard) × (back.1 ≡ part)) }
    {
        if part.part(guard.show()).is_some() {
            Ok(Mapped::map(guard, part))
        } else {
            Err((guard, part))
        }
    }

    // The guard and the part.
    pub(crate) fn into_parts(self) -> (G, P)
        ensures there { IsSome (P.get result.1 (G.shown result.0)) }
        ensures guard { result.0 ≡ self.at.guard }
        ensures part { result.1 ≡ self.at.part }
    {
        let Mapped {
            at: Shown { guard, part, of: _ },
        } = self;
        (guard, part)
    }

    /// Shows a part of the part, or hands both back exactly where it is not there. It takes no memory.
    pub fn filter_map_further<Q: Part<P::Out>>(
        orig: Self,
        part: Q,
    ) -> Result<Mapped<T, G, Then<P, Q>>, (Self, Q)>
        ensures { MatchResult result
            (λ mapped. IsSome (then_get (P.get orig.at.part (G.shown orig.at.guard)) (λ u. Q.get part u))
            × (mapped.at.guard ≡ orig.at.guard) × (mapped.at.part ≡ record { first = orig.at.part; second = part }))
            (λ back. (then_get (P.get orig.at.part (G.shown orig.at.guard)) (λ u. Q.get part u) ≡ None)
            × (back.0.at.guard ≡ orig.at.guard) × (back.0.at.part ≡ orig.at.part) × (back.1 ≡ part)) }
    {
        let (guard, first) = orig.into_parts();
        let both = Then {
            first,
            second: part,
        };
        match Mapped::filter_map(guard, both) {
            Ok(mapped) => Ok(mapped),
            Err((guard, both)) => {
                let Then { first, second } = both;
                Err((Mapped::map(guard, first), second))
            }
        }
    }
}

impl<T, G: Downgrades<T>, P: Part<T>> Mapped<T, G, P> {
    /// Makes a write a read of the same part, in one step: no other write is let in before. To share the value takes
    /// memory, and where there is none the write comes back.
    pub fn downgrade<R: Wait>(self, rt: &R) -> Result<Mapped<T, G::Read, P>, (Self, NoMemory)>
        ensures shared { IfOk result (λ read. (G.Read.shown read.at.guard ≡ G.shown self.at.guard) × (read.at.part ≡ self.at.part)) }
        ensures err { IfErr result (λ e. (G.shown e.0.at.guard ≡ G.shown self.at.guard) × (e.0.at.part ≡ self.at.part)) }
    {
        let (guard, part) = self.into_parts();
        match guard.downgrade(rt) {
            Ok(guard) => Ok(Mapped::map(guard, part)),
            Err((guard, e)) => Err((Mapped::map(guard, part), e)),
        }
    }
}

impl<T, G: Shows<T>, P: Part<T>> Deref for Mapped<T, G, P> {
    type Target = P::Out;

    ghost deref_gives = { λ mapped there. P.get mapped.at.part (G.shown mapped.at.guard) ≡ Some there };

    fn deref(&self) -> &P::Out {
        match self.at.part.part(self.at.guard.show()) {
            Some(there) => there,
            None => unreachable!(),
        }
    }
}

impl<T, G: Access<T>, P: Part<T> + Copy> DerefMut for Mapped<T, G, P> {
    ghost deref_mut_gives = { λ mapped there. P.get mapped.at.part (G.shown mapped.at.guard) ≡ Some there };

    fn deref_mut(&mut self) -> &mut P::Out {
        self.at.shown()
    }
}

impl<T, G: Shows<T> + End, P: Part<T> + Drop> End for Mapped<T, G, P> {
    fn end<R: Wait>(self, rt: &R) {
        let (guard, _) = self.into_parts();
        guard.end(rt);
    }
}
