ghost use Rattle.std.specs.Prelude.{◌≡◌, Option, Some, None, IsSome, refl};
ghost use Rattle.std.specs.Option.{option_copied, option_copied_mut};
ghost use Rattle.std.specs.Borrow.{LendsIf, sem};
ghost use Rattle.mea_lock_core.specs.Then.{then_get, then_put, then_stays, then_rests};

use crate::part::Part;

/// The part of a part: of what `first` names in a whole, what `second` names in that. A mapped guard that
/// is mapped further has such a part.
#[derive(Clone, Copy, Debug, PartialEq, Eq)]
pub struct Then<P, Q> {
    /// The part of the whole.
    pub first: P,
    /// The part of that part.
    pub second: Q,
}

impl<T, P: Part<T>, Q: Part<P::Out>> Part<T> for Then<P, Q> {
    type Out = Q::Out;

    ghost get = { λ p x. then_get (P.get p.first x) (λ u. Q.get p.second u) };

    ghost put = { λ p x y. then_put (P.get p.first x) x (λ u. P.put p.first x (Q.put p.second u y)) };

    fn part<'a>(&self, whole: &'a T) -> Option<&'a Q::Out>
    where
        Self: 'a,
    {
        let Some(middle) = self.first.part(whole) else {
            return None;
        };
        self.second.part(middle)
    }

    fn part_mut<'a>(whole: &'a mut T, part: &Self) -> Option<&'a mut Q::Out>
    where
        Self: 'a,
    {
        let Some(middle) = P::part_mut(whole, &part.first) else {
            return None;
        };
        Q::part_mut(middle, &part.second)
    }

    ghost stays = { λ p x y h. then_stays (P.get p.first) (P.put p.first) (Q.get p.second) (Q.put p.second) (P.stays p.first) (Q.stays p.second) x y (P.get p.first x) refl h };

    ghost rests = { λ p x y h. then_rests (P.get p.first) (P.put p.first) (Q.get p.second) (Q.put p.second) (P.rests p.first) (Q.rests p.second) x y (P.get p.first x) refl h };
}
