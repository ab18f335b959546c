ghost use Rattle.std.specs.Prelude.{◌≡◌, ◌↔◌, IsTrue};
ghost use Rattle.mea_sem_core.specs.Acquire.{renewed};
ghost use Rattle.mea_lock_core.specs.Lock.{IsUnready};

use mea_sem_core::Acquire;
use std::marker::Model;

/// The future of a lock of a mutex: an acquire of its one permit. It belongs to the mutex that has polled
/// it.
///
/// It may be dropped without its ending call: its mutex then stays as it is. It ports the future of
/// `mea::mutex::Mutex::lock`.
#[derive(Debug, PartialEq, Eq, Drop)]
pub struct LockWait {
    pub(crate) acquire: Acquire,
}

impl Model for LockWait {
    ghost use Rattle.std.specs.Prelude.{◌≡◌};
    ghost use Rattle.mea_sem_core.specs.declared.acquire.Acquire.{Acquire};
    ghost use Rattle.mea_sem_core.specs.Acquire.{demand_of};

    ghost Value = { Acquire };

    ghost view = { λ w. w.acquire };

    ghost inverse = { λ a. record { acquire = a } };

    ghost invariant = { λ w. demand_of w.acquire ≡ 1 };
}

impl LockWait {
    /// A wait that was never polled. It takes no memory.
    pub fn new() -> Self
        ensures { result ≡ Acquire.New 1 }
    {
        LockWait {
            acquire: Acquire::new(1),
        }
    }

    /// Makes it one that was never polled. It takes no memory.
    pub fn renew(&mut self)
        ensures { self.new ≡ renewed self.old }
    {
        self.acquire.renew();
    }

    // Whether it was not ready yet.
    pub(crate) fn is_unready(&self) -> bool
        ensures { IsTrue result ↔ IsUnready self.now }
    {
        !matches!(self.acquire, Acquire::Done { .. } | Acquire::Refused { .. })
    }
}
