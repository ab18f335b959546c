ghost use Rattle.std.specs.Prelude.{◌≡◌, ◌<◌, ◌≤◌, ◌∷◌, [], length, true, false, OnErr, IfOk, IfSome, IfNone};
ghost use Rattle.mea_lock_core.specs.RwLock.{IsSound, MayPoll, MayCancel, share_of, is_write};
ghost use Rattle.mea_lock.specs.Cores.{PollsLock, CancelsLock, TakesLock, UnlocksLock, LowersLock, IsHeldAs, keeps_out};
ghost use Rattle.mea_lock.specs.Parts.{IsNewLock};
ghost use Rattle.mea_lock.specs.Waits.{IsNewWait};

use mea_base::{NoMemory, Turn};
use mea_by_name::NamedWaker;
use std::alloc::Global;

/// The core of a lock as a hall uses it. Each kind is seen as a reader-writer lock: a mutex is one of one
/// permit that is only written. Only `poll` takes memory.
pub trait LockCore: Drop {
    type Wait: Drop;

    ghost use Rattle.mea_lock_core.specs.declared.rw_wait.RwWait.{RwWait};
    ghost use Rattle.mea_lock.specs.Cores.{NamedLock};
    ghost use Rattle.std.specs.Prelude.{Bool};

    ghost lock_of: { Self → NamedLock };

    ghost wait_of: { Self.Wait → RwWait };
    // Whether it is only written, as a mutex is.
    ghost is_only_written: { Bool };

    /// A lock of a value and so many permits, which nobody holds or waits for. It takes no memory.
    fn make(alloc: Global, value: u64, most: usize) -> Self
        requires some { 0 < most }
        requires one { is_only_written ≡ true → most ≡ 1 }
        ensures { IsNewLock (lock_of result) value most };

    /// Whether a wait is for a write.
    fn writes(wait: &Self::Wait) -> bool
        ensures { result ≡ is_write (wait_of wait.now) };

    /// A wait that was never polled, to read or to write.
    fn new_wait(&self, write: bool) -> Self::Wait
        requires { is_only_written ≡ true → write ≡ true }
        ensures { IsNewWait (lock_of self.now) write (wait_of result) };

    /// How many waits are in its queue.
    fn queue_len(&self) -> usize
        ensures is { result ≡ length (lock_of self.now).permits.queue }
        ensures sound { IsSound (lock_of self.now) };

    /// Whether what is held keeps a read out, or a write.
    fn keeps_out(&self, write: bool) -> bool
        ensures { result ≡ keeps_out write (lock_of self.now) };

    /// Takes the first waker that is ready.
    fn next_wake(&mut self) -> Option<NamedWaker>
        ensures some { IfSome result (λ waker. lock_of self.old ≡ record (lock_of self.new) { permits = record (lock_of self.new).permits { wakes = waker ∷ (lock_of self.new).permits.wakes } }) }
        ensures none { IfNone result (((lock_of self.old).permits.wakes ≡ []) × (self.new ≡ self.old)) };

    /// Polls a wait. On an error nothing has changed.
    fn poll(
        &mut self,
        wait: &mut Self::Wait,
        waker: NamedWaker,
    ) -> Result<Turn<NamedWaker>, NoMemory>
        requires { MayPoll (lock_of self.old) (wait_of wait.old) }
        ensures polls { IfOk result (λ turn. PollsLock (lock_of self.old) (wait_of wait.old) waker turn (lock_of self.new) (wait_of wait.new)) }
        ensures err { OnErr result ((self.new ≡ self.old) × (wait.new ≡ wait.old)) };

    /// Ends a wait.
    fn cancel(&mut self, wait: Self::Wait)
        requires { MayCancel (lock_of self.old) (wait_of wait) }
        ensures { CancelsLock (lock_of self.old) (wait_of wait) (lock_of self.new) };

    /// Whether the permits of a read, or of a write, are free; where they are, they are taken.
    fn try_lock(&mut self, write: bool) -> bool
        requires { is_only_written ≡ true → write ≡ true }
        ensures taken { share_of (lock_of self.old) write ≤ (lock_of self.old).permits.free → (result ≡ true) × TakesLock (lock_of self.old) write (lock_of self.new) }
        ensures refused { (lock_of self.old).permits.free < share_of (lock_of self.old) write → (result ≡ false) × (self.new ≡ self.old) };

    /// Ends a guard that reads, or writes.
    fn unlock(&mut self, write: bool)
        requires { IsHeldAs (lock_of self.old) write }
        ensures { UnlocksLock (lock_of self.old) write (lock_of self.new) };

    /// The value, by a guard that reads, or writes.
    fn value_by(&self, write: bool) -> u64
        requires { IsHeldAs (lock_of self.now) write }
        ensures { result ≡ (lock_of self.now).value };

    /// Writes the value, by a guard that writes.
    fn set_value(&mut self, value: u64)
        requires { (lock_of self.old).writing ≡ true }
        ensures { lock_of self.new ≡ record (lock_of self.old) { value = value } };

    /// The value of a lock that nobody holds or waits for.
    fn idle_value(&mut self) -> u64
        requires { (lock_of self.old).permits.free ≡ (lock_of self.old).most }
        ensures value { result ≡ (lock_of self.old).value }
        ensures same { lock_of self.new ≡ lock_of self.old };

    /// Writes the value of a lock that nobody holds or waits for.
    fn set_idle_value(&mut self, value: u64)
        requires { (lock_of self.old).permits.free ≡ (lock_of self.old).most }
        ensures { lock_of self.new ≡ record (lock_of self.old) { value = value } };

    /// The value, which leaves the lock, that nobody holds or waits for.
    fn into_value(self) -> u64
        requires { (lock_of self).permits.free ≡ (lock_of self).most }
        ensures { result ≡ (lock_of self).value };
}

/// The core of a lock whose guards that write can read from some point on.
pub trait LoweredCore: LockCore {
    /// A guard that writes reads from now on, and gives up all permits but one.
    fn lower(&mut self)
        requires { (Self.lock_of self.old).writing ≡ true }
        ensures { LowersLock (Self.lock_of self.old) (Self.lock_of self.new) };
}
