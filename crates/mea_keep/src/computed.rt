ghost use Rattle.std.specs.Prelude.{◌≡◌, IfErr, IfOk};
ghost use Rattle.std.specs.Arc.{arc_value};

use std::alloc::{AllocError, Global};
use std::marker::Model;
use std::sync::Arc;

/// A value that a map or a group keeps. A core hands out a further share of it, so that the caller's clone is made with no
/// lock held.
#[derive(Drop)]
pub struct Computed<V> {
    value: Arc<V>,
}

impl<V> Model for Computed<V> {
    ghost Value = { V };

    ghost coded = { V.code };

    ghost view = { λ c. arc_value c.value };
}

impl<V: Drop> Computed<V> {
    // Keeps a value, or hands it back where there is no memory.
    pub(crate) fn new(alloc: Global, value: V) -> Result<Self, V>
        ensures ok { IfOk result (λ kept. kept ≡ value) }
        ensures err { IfErr result (λ back. back ≡ value) }
    {
        match Arc::new(alloc, value) {
            Ok(value) => Ok(Computed { value }),
            Err(failed) => Err(failed.value),
        }
    }

    // The value.
    pub(crate) fn get(&self) -> &V
        ensures { result.now ≡ self.now }
    {
        &*self.value
    }
}

impl<V: Drop> Clone for Computed<V> {
    ghost is_clone = { λ x y. y ≡ x };

    fn clone(&self) -> Result<Self, AllocError> {
        match Arc::try_clone(&self.value) {
            Ok(value) => Ok(Computed { value }),
            Err(e) => Err(e),
        }
    }
}
