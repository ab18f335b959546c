//! What a guard shows of the value that it locks.
ghost use Rattle.std.specs.Prelude.{◌≡◌, IfOk, IfErr};
ghost use Rattle.std.specs.Borrow.{Lends, sem};

use mea_base::NoMemory;
use std::sync::Wait;

/// A guard that shows a value of type T. Each guard of a lock meets it, so that a mapped guard is one type
/// for all of them.
pub trait Shows<T> {
    /// The value.
    ghost shown: { Self → T };

    /// The value. It takes no memory.
    fn show(&self) -> &T
        ensures { result.now ≡ shown self.now };
}

/// A guard through which the value may be written: that of a mutex, and that of a write.
pub trait Access<T>: Shows<T> {
    /// The guard with another value.
    ghost with: { Self → T → Self };

    /// The value for writing. It takes no memory.
    fn show_mut(&mut self) -> &mut T
        ensures* writes_back { sem 𝓛 (Lends Self.row T.row self.entry result (λ y. with self.old y)) }
        ensures value { result.now ≡ Self.shown self.old };

    /// What was written is shown.
    ghost holds: { (g : Self) (y : T) → Self.shown (with g y) ≡ y };
}

/// The guard of a write, which may become that of a read of the same value.
pub trait Downgrades<T>: Shows<T> + Sized {
    /// The guard of that read.
    type Read: Shows<T>;

    /// Makes the write a read of the same value, in one step: no other write is let in before. To share the
    /// value takes memory, and where there is none the write comes back.
    fn downgrade<R: Wait>(self, rt: &R) -> Result<Self::Read, (Self, NoMemory)>
        ensures shared { IfOk result (λ guard. Self.Read.shown guard ≡ Self.shown self) }
        ensures err { IfErr result (λ e. Self.shown e.0 ≡ Self.shown self) };
}
