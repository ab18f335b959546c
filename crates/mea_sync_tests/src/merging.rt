ghost use Rattle.std.specs.Prelude.{◌≡◌, IfSome};

use mea_base::Wake;
use mea_sync::semaphore::Semaphore;
use mea_wait::End;
use std::sync::Wait;

/// Takes three permits of a semaphore in two parts and merges them, with a permit of another semaphore in hand: how many the
/// merged one has, where so many were free. That of the other could not be merged, since the contract asks for one semaphore.
pub(crate) fn merged<W: Wake, R: Wait>(
    rt: &R,
    semaphore: &Semaphore<W>,
    other: &Semaphore<W>,
) -> Option<usize>
    ensures { IfSome result (λ n. n ≡ 3) }
{
    let mut two = semaphore.try_acquire(rt, 2)?;
    let Some(one) = semaphore.try_acquire(rt, 1) else {
        two.end(rt);
        return None;
    };
    let Some(strange) = other.try_acquire(rt, 1) else {
        two.end(rt);
        one.end(rt);
        return None;
    };
    two.merge(one);
    strange.end(rt);
    let permits = two.permits();
    two.end(rt);
    Some(permits)
}
