mod inits;
mod puts;
mod steps;
mod waits;

use crate::claim::ReadyValue;
use crate::computing::Computing;
use crate::unfailing::Unfailing;
pub use inits::{CellMutInit, CellMutTryInit};
use mea_base::{NoMemory, Wake};
use mea_once_core::{CellCore, Init, Never};
use mea_wait::hand_out;
pub use puts::{CellInsert, CellSet};
use std::alloc::Global;
use std::sync::{Mutex, OnceLock, Wait};
pub use waits::{CellClaim, CellClaiming};

/// A cell that is filled once, and lends its value to all.
///
/// The value stands in std's `OnceLock`, beside the core that tells whose turn it is: so a look takes no lock. It ports
/// `mea::once::OnceCell`.
pub struct OnceCell<T, W> {
    alloc: Global,
    core: Mutex<CellCore<(), W>>,
    value: OnceLock<T>,
}

// Written out: a derived one is proved anew in each crate that hands a value of this type to a generic function.
impl<T: Drop, W: Drop> Drop for OnceCell<T, W> {
    fn drop(self) {
        let OnceCell {
            alloc: _,
            core: _,
            value: _,
        } = self;
    }
}

/// The future of `OnceCell::get_or_try_init`.
pub type CellTryInit<'a, T, E, I, W> = Computing<
    CellClaiming<'a, T, W>,
    CellClaim<'a, T, W>,
    ReadyValue<&'a T>,
    I,
    T,
    E,
>;

/// The future of `OnceCell::get_or_init`.
pub type CellInit<'a, T, I, W> = Unfailing<CellTryInit<'a, T, Never, I, W>>;

impl<T: Drop, W: Wake> OnceCell<T, W> {
    ghost use Rattle.std.specs.Prelude.{◌≡◌, Some};

    /// An empty cell. It takes no memory.
    pub fn new(alloc: Global) -> Self {
        OnceCell {
            alloc,
            core: Mutex::new(CellCore::new(alloc)),
            value: OnceLock::new(),
        }
    }

    /// A cell with a value. It takes no memory.
    pub fn from_value(alloc: Global, value: T) -> Self {
        OnceCell {
            alloc,
            core: Mutex::new(CellCore::from_value(alloc, ())),
            value: OnceLock::from(value),
        }
    }

    /// The value, if there is one. It takes neither lock nor memory.
    pub fn get(&self) -> Option<&T> {
        self.value.get()
    }

    /// The value for writing, if there is one, for who has the whole cell. It takes no memory.
    pub fn get_mut(&mut self) -> Option<&mut T> {
        self.value.get_mut()
    }

    /// A wait for the value, or for the turn to compute it. It takes no memory before its first poll.
    pub fn claim(&self) -> CellClaiming<'_, T, W> {
        CellClaiming::of(self)
    }

    /// A wait for the value, which runs the initialiser where no other does. It takes no memory before its first poll.
    pub fn get_or_init<I: Init<T, Never, W>>(&self, init: I) -> CellInit<'_, T, I, W>
        ensures { result.wait.init ≡ init }
    {
        Unfailing::of(Computing::of(CellClaiming::of(self), init))
    }

    /// `get_or_init`, whose initialiser may have an error; then the turn goes to the next that waits.
    pub fn get_or_try_init<E, I: Init<T, E, W>>(&self, init: I) -> CellTryInit<'_, T, E, I, W>
        ensures { result.init ≡ init }
    {
        Computing::of(CellClaiming::of(self), init)
    }

    /// `get_or_init`, for who has the whole cell, and who then may write the value.
    pub fn get_mut_or_init<I: Init<T, Never, W>>(&mut self, init: I) -> CellMutInit<'_, T, I, W>
        ensures { result.wait.init ≡ Some init }
    {
        Unfailing::of(CellMutTryInit::of(self, init))
    }

    /// `get_or_try_init`, for who has the whole cell, and who then may write the value.
    pub fn get_mut_or_try_init<E, I: Init<T, E, W>>(
        &mut self,
        init: I,
    ) -> CellMutTryInit<'_, T, E, I, W>
        ensures { result.init ≡ Some init }
    {
        CellMutTryInit::of(self, init)
    }

    /// A wait until the value is put, or until the cell is full; then the value comes back beside the one that is there.
    /// It takes no memory before its first poll.
    pub fn try_insert(&self, value: T) -> CellInsert<'_, T, W>
        ensures { result ≡ value }
    {
        CellInsert::of(self, value)
    }

    /// A wait until the value is put, or until the cell is full; then the value comes back. It takes no memory before its
    /// first poll.
    pub fn set(&self, value: T) -> CellSet<'_, T, W>
        ensures { result ≡ value }
    {
        CellSet::of(self, value)
    }

    /// The value, if there is one, for who has the whole cell, which ends. It takes no memory.
    pub fn into_inner(self) -> Option<T> {
        let OnceCell {
            alloc: _,
            core: _,
            value,
        } = self;
        value.into_inner()
    }

    /// Takes the value out, for who has the whole cell, which is empty then. It takes no memory.
    pub fn take(&mut self) -> Option<T> {
        self.core.get_mut().take_checked();
        self.value.take()
    }

    /// Whether both cells are empty, or have equal values, as a look at each tells it. It takes neither lock nor memory.
    pub fn is_equal(&self, other: &Self) -> bool
    where
        T: PartialEq,
    {
        match (self.get(), other.get()) {
            (Some(value), Some(other)) => *value == *other,
            (None, None) => true,
            _ => false,
        }
    }

    /// A cell with a clone of the value, if there is one. It is refused where the clone is.
    pub fn try_clone(&self) -> Result<Self, NoMemory>
    where
        T: Clone,
    {
        match self.get() {
            Some(value) => Ok(OnceCell::from_value(self.alloc, value.clone()?)),
            None => Ok(OnceCell::new(self.alloc)),
        }
    }

    // Wakes as many as the step before has made ready.
    fn wake<R: Wait>(&self, rt: &R, made: usize) {
        hand_out(made, || self.core.lock(rt).next_wake());
    }
}
