ghost use Rattle.std.specs.Prelude.{◌≡◌};
ghost use Rattle.mea_lock_model.specs.Locks.{goes_on};
ghost use Rattle.mea_lock.specs.Waits.{may_go_on};

use mea_lock_model::Until;

/// Whether a wait that has the lock goes on waiting at a value.
pub fn goes_on(until: Until, value: u64) -> bool
    ensures { result ≡ goes_on until value }
{
    match until {
        Until::Held => false,
        Until::Reached(least) => value < least,
        Until::Never => true,
    }
}

/// Whether a wait that has the lock goes on waiting at some value.
pub fn may_go_on(until: Until) -> bool
    ensures { result ≡ may_go_on until }
{
    match until {
        Until::Held => false,
        Until::Reached(_) | Until::Never => true,
    }
}

/// What the poll of a future at its mutex means for its wait.
#[derive(Clone, Copy)]
pub enum Asked {
    /// It has the lock, and is over.
    Ready,
    /// It asks for the lock, and has to wait for it.
    Asks,
    /// It gave the lock up.
    Lays,
}
