//! Polls of waits for a claim, which hand out what they came to.
//!
//! The tests hand such waits to functions that are generic in them: there a wait is one bound, where the proof builds the whole of a
//! type that is known at each call. So a wait with an initialiser is put together here, of parts that are bounds.
ghost use Rattle.std.specs.Prelude.{IfSome};

use mea_keep::{Claim, Claimed, Claiming, Computing, Init, Never, Unfailing};
use mea_test_support::{Bell, Count, PollOutcome, gives, poll};
use mea_wait::{End, Waits};
use std::sync::Wait;

/// The turn that a wait gives, if there is one; what it gives instead is dropped.
pub(crate) fn mine<R: Wait, F: Waits<Bell, Claimed<V, C>>, V: Drop, C: End>(
    rt: &R,
    wait: Option<F>,
    count: &Count,
) -> Option<C>
    requires { IfSome wait F.can_poll }
{
    match gives(rt, wait, count)? {
        Claimed::Mine(claim) => Some(claim),
        Claimed::There(_) => None,
    }
}

/// Polls a wait for a claim that is to go on, and hands it back.
pub(crate) fn queues<R: Wait, F: Waits<Bell, Claimed<V, C>>, V: Drop, C: End>(
    rt: &R,
    wait: F,
    count: &Count,
) -> Option<F>
    requires { F.can_poll wait }
    ensures { IfSome result F.can_poll }
{
    match poll(rt, wait, count) {
        PollOutcome::Ready(Claimed::Mine(claim)) => {
            claim.end(rt);
            None
        }
        PollOutcome::Ready(Claimed::There(_)) => None,
        PollOutcome::Pending(wait) => Some(wait),
        PollOutcome::Refused => None,
    }
}

/// The value that a wait gives; a turn that it gives instead is ended.
pub(crate) fn there<R: Wait, F: Waits<Bell, Claimed<V, C>>, V, C: End>(
    rt: &R,
    wait: Option<F>,
    count: &Count,
) -> Option<V>
    requires { IfSome wait F.can_poll }
{
    match gives(rt, wait, count)? {
        Claimed::Mine(claim) => {
            claim.end(rt);
            None
        }
        Claimed::There(value) => Some(value),
    }
}

/// What who has the turn gets for the value that it gives; a wait that comes back for want of memory is ended.
pub(crate) fn gave<R: Wait, T: Drop, V, C: Claim<T, V, G>, G: End>(
    rt: &R,
    claim: Option<C>,
    value: T,
) -> Option<V> {
    match claim?.finish(rt, value) {
        Ok(value) => Some(value),
        Err(kept) => {
            kept.end(rt);
            None
        }
    }
}

/// What a wait with an initialiser gives, if it does; one that goes on is ended.
pub(crate) fn value_of<
    R: Wait,
    F: Claiming<Bell, V, C>,
    C: Claim<T, V, G>,
    G: Claiming<Bell, V, Never>,
    I: Init<T, Never, Bell> + Drop,
    T,
    V,
>(rt: &R, wait: Unfailing<Computing<F, C, G, I, T, Never>>, count: &Count) -> Option<V>
    requires { (init : I) → I.may_poll init }
{
    gives(rt, Some(wait), count)
}

/// The same of one whose initialiser may have an error.
pub(crate) fn answer_of<
    R: Wait,
    F: Claiming<Bell, V, C>,
    C: Claim<T, V, G>,
    G: Claiming<Bell, V, Never>,
    I: Init<T, E, Bell> + Drop,
    T,
    E,
    V,
>(rt: &R, wait: Computing<F, C, G, I, T, E>, count: &Count) -> Option<Result<V, E>>
    requires { (init : I) → I.may_poll init }
{
    gives(rt, Some(wait), count)
}
