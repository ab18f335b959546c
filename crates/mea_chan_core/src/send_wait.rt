ghost use Rattle.std.specs.Prelude.{◌≡◌, Some};
ghost use Rattle.mea_sem_core.specs.Acquire.{demand_of};
ghost use Rattle.mea_sem_core.specs.declared.acquire.Acquire.{Acquire};

use mea_sem_core::Acquire;
use std::mem;

/// A send on a bounded channel that may have to wait: its value, until it is sent or handed back, and its place among
/// the senders that wait. It belongs to the channel that has polled it.
///
/// It may be dropped without its ending call: its channel then stays as it is. It is the state of the future of
/// `mea::mpsc::BoundedSender::send`.
#[derive(Drop)]
pub struct SendWait<T> {
    pub value: Option<T>,
    pub acquire: Acquire,
    ghost one: { demand_of acquire ≡ 1 },
}

impl<T> SendWait<T> {
    /// A send of this value that was never polled. It takes no memory.
    pub fn new(value: T) -> Self
        ensures { (result.value ≡ Some value) × (result.acquire ≡ Acquire.New 1) }
    {
        SendWait {
            value: Some(value),
            acquire: Acquire::new(1),
        }
    }

    /// Makes it one that was never polled, with the same value. It takes no memory.
    pub fn renew(&mut self)
        ensures value { self.new.value ≡ self.old.value }
        ensures acquire { self.new.acquire ≡ Acquire.New 1 }
    {
        self.acquire = Acquire::new(1);
    }

    // Takes the acquire, and leaves one that was never polled.
    pub(crate) fn take_acquire(&mut self) -> Acquire
        ensures is { result ≡ self.old.acquire }
        ensures fresh { self.new.acquire ≡ Acquire.New 1 }
        ensures value { self.new.value ≡ self.old.value }
    {
        mem::replace(&mut self.acquire, Acquire::new(1))
    }
}
