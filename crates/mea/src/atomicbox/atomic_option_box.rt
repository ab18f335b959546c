use mea_chan_core::OptionBoxCore;
use std::sync::{Mutex, Wait};

/// A box that threads share, and that may be empty. Each call swaps the content whole, in one step; none takes memory.
/// It ports `mea::atomicbox::AtomicOptionBox`.
pub struct AtomicOptionBox<T> {
    core: Mutex<OptionBoxCore<T>>,
}

// Written out: a derived one is proved anew in each crate that hands a value of this type to a generic function.
impl<T: Drop> Drop for AtomicOptionBox<T> {
    fn drop(self) {
        let AtomicOptionBox { core: _ } = self;
    }
}

impl<T: Drop> AtomicOptionBox<T> {
    /// A box with this content, or without one.
    pub fn new(value: Option<Box<T>>) -> Self {
        AtomicOptionBox {
            core: Mutex::new(OptionBoxCore::new(value)),
        }
    }

    /// An empty box.
    pub fn none() -> Self {
        AtomicOptionBox {
            core: Mutex::new(OptionBoxCore::none()),
        }
    }

    /// Puts another content in, and hands out the one before.
    pub fn swap<R: Wait>(&self, rt: &R, other: Option<Box<T>>) -> Option<Box<T>> {
        self.core.lock(rt).swap(other)
    }

    /// Puts another content in. The one before is dropped after the step, while nobody is kept out.
    pub fn store<R: Wait>(&self, rt: &R, other: Option<Box<T>>) {
        drop(self.swap(rt, other));
    }

    /// Takes the content out, and leaves the box empty.
    pub fn take<R: Wait>(&self, rt: &R) -> Option<Box<T>> {
        self.core.lock(rt).take()
    }

    /// Swaps the content with another.
    pub fn swap_mut<R: Wait>(&self, rt: &R, other: &mut Option<Box<T>>) {
        self.core.lock(rt).swap_mut(other);
    }

    /// The content, if there is one, for who has the whole box, which ends.
    pub fn into_inner(self) -> Option<Box<T>> {
        let AtomicOptionBox { core } = self;
        core.into_inner().into_inner()
    }

    /// Lends the content, if there is one, for who has the whole box.
    pub fn get_mut(&mut self) -> Option<&mut T> {
        self.core.get_mut().get_mut()
    }
}
