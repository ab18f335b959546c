ghost use Rattle.std.specs.Prelude.{◌≡◌};
ghost use Rattle.mea_sem_core.specs.declared.acquire.Acquire.TheVariants as acquire;

use mea_sem_core::Acquire;

/// The future of a read or a write of a reader-writer lock. It belongs to the lock that has polled it.
///
/// It may be dropped without its ending call: its lock then stays as it is. It ports the futures of
/// `mea::rwlock::RwLock::read` and `write`.
#[derive(Debug, PartialEq, Eq, Drop)]
pub enum RwWait {
    /// A read: an acquire of one permit.
    Read { acquire: Acquire },
    /// A write that was never polled, and does not know how many permits its lock has.
    NewWrite,
    /// A write that was polled: an acquire of all permits.
    Write { acquire: Acquire },
}

impl RwWait {
    ghost use Rattle.mea_lock_core.specs.RwLock.{renewed_rw};

    /// A read that was never polled. It takes no memory.
    pub fn read() -> Self
        ensures { result ≡ RwWait.Read (acquire.New 1) }
    {
        RwWait::Read {
            acquire: Acquire::new(1),
        }
    }

    /// A write that was never polled. It takes no memory.
    pub fn write() -> Self
        ensures { result ≡ RwWait.NewWrite }
    {
        RwWait::NewWrite
    }

    /// Makes it one that was never polled, for a read or a write as before. It takes no memory.
    pub fn renew(&mut self)
        ensures { self.new ≡ renewed_rw self.old }
    {
        *self = match self {
            RwWait::Read { .. } => RwWait::read(),
            RwWait::NewWrite | RwWait::Write { .. } => RwWait::NewWrite,
        };
    }
}
