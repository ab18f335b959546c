ghost use Rattle.std.specs.Prelude.{◌≡◌};

use crate::lock_wait::LockWait;

/// The future of a wait on a condition variable. It takes the guard of a mutex over, and has one again
/// when it is ready. It belongs to the condition variable that has polled it and to that mutex.
///
/// It may be dropped without its ending call: both then stay as they are. It ports the future of
/// `mea::condvar::Condvar::wait`.
#[derive(Debug, PartialEq, Eq, Drop)]
pub enum CondWait {
    /// Never polled: it has the lock.
    New,
    /// It waits, or was notified since, under this number of its condition variable.
    Listed { number: usize },
    /// It was notified, alone or with all, and asks for the lock.
    Locking { by_one: bool, wait: LockWait },
    /// It was ready.
    Done,
}

impl CondWait {
    ghost use Rattle.mea_lock_core.specs.CondWaits.{renewed_wait};

    /// A wait that was never polled, for who holds the lock. It takes no memory.
    pub fn new() -> Self
        ensures { result ≡ CondWait.New }
    {
        CondWait::New
    }

    /// Makes it one that was notified with all, and asks for the lock. It takes no memory.
    pub fn renew(&mut self)
        ensures { self.new ≡ renewed_wait }
    {
        *self = CondWait::Locking {
            by_one: false,
            wait: LockWait::new(),
        };
    }
}
