//! Where the value of a reader-writer lock rests: whole, where no read was tried or polled since the last write; else in shares,
//! of which each guard of a read has one; or away, while the guard of a write has it.
ghost use Rattle.std.specs.Prelude.{◌≡◌, Some, None, IfSome, IfNone, IfOk, IsSome, OnErr, OnSome};
ghost use Rattle.std.specs.Arc.{arc_value};
ghost use Rattle.mea_sync.specs.Slot.{value_in};

use mea_base::NoMemory;
use std::alloc::Global;
use std::sync::Arc;

// A share for who reads, or None where the value is away. The first after a write takes memory.
pub(super) fn share<T: Drop>(
    owned: &mut Option<T>,
    shared: &mut Option<Arc<T>>,
    alloc: Global,
) -> Result<Option<Arc<T>>, NoMemory>
    ensures there { IfOk result (λ copy. IfSome copy (λ arc. value_in owned.old shared.old ≡ Some (arc_value arc))) }
    ensures away { IfOk result (λ copy. IfNone copy (value_in owned.old shared.old ≡ None)) }
    ensures kept { value_in owned.new shared.new ≡ value_in owned.old shared.old }
{
    if let Some(value) = owned.take() {
        match Arc::new(alloc, value) {
            Ok(arc) => *shared = Some(arc),
            Err(refused) => {
                *owned = Some(refused.value);
                return Err(NoMemory);
            }
        }
    }
    let Some(arc) = shared.as_ref() else {
        return Ok(None);
    };
    Ok(Some(Arc::try_clone(arc)?))
}

// Takes the value out of its `Arc`, unless a share of it is left.
pub(super) fn unshare<T: Drop>(owned: &mut Option<T>, shared: &mut Option<Arc<T>>)
    ensures kept { value_in owned.new shared.new ≡ value_in owned.old shared.old }
    ensures apart { IsSome owned.new → shared.new ≡ None }
    ensures whole { IsSome owned.old → owned.new ≡ owned.old }
{
    if owned.is_some() {
        *shared = None;
        return;
    }
    if let Some(arc) = shared.take() {
        match Arc::try_unwrap(arc) {
            Ok(value) => *owned = Some(value),
            Err(arc) => *shared = Some(arc),
        }
    }
}

// The value for who writes, unless it is away or a share of it is left.
pub(super) fn take<T: Drop>(owned: &mut Option<T>, shared: &mut Option<Arc<T>>) -> Option<T>
    ensures value { IfSome result (λ value. value_in owned.old shared.old ≡ Some value) }
    ensures taken { OnSome result (value_in owned.new shared.new ≡ None) }
    ensures kept { IfNone result (value_in owned.new shared.new ≡ value_in owned.old shared.old) }
    ensures whole { IsSome owned.old → result ≡ owned.old }
{
    unshare(owned, shared);
    owned.take()
}

// The value, unless it is away or a share of it is left.
pub(super) fn into_value<T: Drop>(owned: Option<T>, shared: Option<Arc<T>>) -> Option<T>
    ensures value { IfSome result (λ value. value_in owned shared ≡ Some value) }
    ensures whole { IsSome owned → result ≡ owned }
{
    if owned.is_some() {
        return owned;
    }
    match shared {
        Some(arc) => Arc::into_inner(arc),
        None => None,
    }
}
