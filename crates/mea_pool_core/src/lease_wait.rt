ghost use Rattle.std.specs.Prelude.{◌≡◌};

use mea_sem_core::Acquire;

/// The future of a lease. It belongs to the pool that has polled it.
///
/// It may be dropped without its ending call: its pool then stays as it is.
#[derive(Debug, PartialEq, Eq, Drop)]
pub enum LeaseWait {
    /// Never polled.
    New,
    /// Polled and not ready then: it waits, or was granted or cut since, under this number of its pool.
    Queued { number: usize },
    /// It has got a lease.
    Done,
    /// A draining pool has refused it.
    Refused,
}

impl LeaseWait {
    ghost use Rattle.mea_pool_core.specs.Waits.{acquire_of, wait_of};

    /// A wait that was never polled. It takes no memory.
    pub fn new() -> Self
        ensures { result ≡ LeaseWait.New }
    {
        LeaseWait::New
    }

    // The acquire of one place that stands for it.
    pub(crate) fn acquire(&self) -> Acquire
        ensures { result ≡ acquire_of self.now }
    {
        match *self {
            LeaseWait::New => Acquire::New { demand: 1 },
            LeaseWait::Queued { number } => Acquire::Queued { demand: 1, number },
            LeaseWait::Done => Acquire::Done { demand: 1 },
            LeaseWait::Refused => Acquire::Refused { demand: 1 },
        }
    }

    // The wait for which such an acquire stands.
    pub(crate) fn of(acquire: Acquire) -> Self
        ensures { result ≡ wait_of acquire }
    {
        match acquire {
            Acquire::New { .. } => LeaseWait::New,
            Acquire::Queued { number, .. } => LeaseWait::Queued { number },
            Acquire::Done { .. } => LeaseWait::Done,
            Acquire::Refused { .. } => LeaseWait::Refused,
        }
    }
}
