ghost use Rattle.std.specs.Prelude.{◌≡◌, ◌↔◌, Option, Some, None, IsSome, IsNone, IfSome, IfNone};
ghost use Rattle.std.specs.Option.{option_copied, option_copied_mut};
ghost use Rattle.std.specs.Borrow.{LendsIf, sem};
ghost use Rattle.std.specs.Fn.{FnOnceReturnsAt, FnOnceReturnsAtMut, FnOnceTakesAt, FnOnceTakesAtMut};

/// A part that a value may have, as a field of it or its first item. A mapped guard is a guard and such a
/// part.
///
/// It stands in place of the pointer to a part that a mapped guard of `mea` has.
pub trait Part<T> {
    /// The type of the part.
    type Out;

    /// The part of a whole, where it has one.
    ghost get: { Self → T → Option Self.Out };

    /// A whole with its part replaced.
    ghost put: { Self → T → Self.Out → T };

    /// The part of a whole, where it has one.
    fn part<'a>(&self, whole: &'a T) -> Option<&'a Self::Out>
    where
        Self: 'a,
        ensures { option_copied result ≡ get self.now whole.now };

    /// The part of a whole for writing, where it has one.
    fn part_mut<'a>(whole: &'a mut T, part: &Self) -> Option<&'a mut Self::Out>
    where
        Self: 'a,
        ensures* writes_back { sem 𝓛 (LendsIf T.row Self.Out.row whole.entry result (λ y. put part.now whole.old y) whole.old) }
        ensures value { option_copied_mut result ≡ get part.now whole.old };

    /// What was written into a part is there.
    ghost stays: { (p : Self) (x : T) (y : Self.Out) → IsSome (get p x) → get p (put p x y) ≡ Some y };

    /// To write what is there changes nothing.
    ghost rests: { (p : Self) (x : T) (y : Self.Out) → get p x ≡ Some y → put p x y ≡ x };
}

/// Calls the function on the part, or answers None where there is none. It takes no memory of its own.
pub fn with_part<'a, T, P: Part<T> + 'a, R, F: FnOnce(&P::Out) -> R>(
    whole: &'a T,
    part: &P,
    f: F,
) -> Option<R>
    requires { IfSome (P.get part.now whole.now) (λ u. FnOnceTakesAt F.FnOnce f u) }
    ensures some { IfSome result (λ r. (u : P.Out) × (P.get part.now whole.now ≡ Some u) × FnOnceReturnsAt F.FnOnce f u r) }
    ensures none { IsNone result ↔ (P.get part.now whole.now ≡ None) }
{
    match part.part(whole) {
        Some(there) => Some(f(there)),
        None => None,
    }
}

/// Calls the function on the part, which it may change, or answers None where there is none. It takes no
/// memory of its own.
pub fn with_part_mut<'a, T, P: Part<T> + 'a, R, F: FnOnce(&mut P::Out) -> R>(
    whole: &'a mut T,
    part: &P,
    f: F,
) -> Option<R>
    requires { IfSome (P.get part.now whole.old) (λ u. FnOnceTakesAtMut F.FnOnce f u) }
    ensures some { IfSome result (λ r. (u : P.Out) × (v : P.Out) × (P.get part.now whole.old ≡ Some u) × FnOnceReturnsAtMut F.FnOnce f u r v
        × (whole.new ≡ P.put part.now whole.old v)) }
    ensures none { IsNone result ↔ (P.get part.now whole.old ≡ None) }
    ensures unchanged { IfNone result (whole.new ≡ whole.old) }
{
    match P::part_mut(whole, part) {
        Some(there) => Some(f(there)),
        None => None,
    }
}
