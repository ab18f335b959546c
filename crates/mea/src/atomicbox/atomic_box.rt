ghost use Rattle.std.specs.Prelude.{◌≡◌};

use mea_chan_core::BoxCore;
use std::sync::{Mutex, Wait};

/// A box that threads share. Each call swaps the content whole, in one step; none takes memory. It ports
/// `mea::atomicbox::AtomicBox`.
pub struct AtomicBox<T> {
    core: Mutex<BoxCore<T>>,
}

// Written out: a derived one is proved anew in each crate that hands a value of this type to a generic function.
impl<T: Drop> Drop for AtomicBox<T> {
    fn drop(self) {
        let AtomicBox { core: _ } = self;
    }
}

impl<T: Drop> AtomicBox<T> {
    /// A box with this content.
    pub fn new(value: Box<T>) -> Self {
        AtomicBox {
            core: Mutex::new(BoxCore::new(value)),
        }
    }

    /// Puts another content in, and hands out the one before.
    pub fn swap<R: Wait>(&self, rt: &R, other: Box<T>) -> Box<T> {
        self.core.lock(rt).swap(other)
    }

    /// Puts another content in. The one before is dropped after the step, while nobody is kept out.
    pub fn store<R: Wait>(&self, rt: &R, other: Box<T>) {
        drop(self.swap(rt, other));
    }

    /// Swaps the content with another box.
    pub fn swap_mut<R: Wait>(&self, rt: &R, other: &mut Box<T>) {
        self.core.lock(rt).swap_mut(other);
    }

    /// The content, for who has the whole box, which ends.
    pub fn into_inner(self) -> Box<T> {
        let AtomicBox { core } = self;
        core.into_inner().into_inner()
    }

    /// Lends the content, for who has the whole box.
    pub fn get_mut(&mut self) -> &mut T {
        self.core.get_mut().get_mut()
    }
}
