ghost use Rattle.std.specs.Prelude.{◌≡◌};

use crate::cond_wait::CondWait;

/// The future of a wait on a condition variable that goes on while a condition on the locked value holds.
///
/// It may be dropped without its ending call: its condition variable and its mutex then stay as they are.
/// It ports the future of `mea::condvar::Condvar::wait_while`.
#[derive(Drop)]
pub struct WaitWhile<F> {
    /// How far the wait is.
    pub wait: CondWait,
    /// Answers true while the wait has to go on, and may change the value.
    pub condition: F,
}

impl<F> WaitWhile<F> {
    ghost use Rattle.mea_lock_core.specs.Whiles.{renewed_while};

    /// A wait that was never polled, for who holds the lock. It takes no memory.
    pub fn new(condition: F) -> Self
        ensures { result ≡ record { wait = CondWait.New; condition = condition } }
    {
        WaitWhile {
            wait: CondWait::New,
            condition,
        }
    }

    /// Makes it one that was notified with all, and asks for the lock. It takes no memory.
    pub fn renew(&mut self)
        ensures { self.new ≡ renewed_while self.old }
    {
        self.wait.renew();
    }
}
