ghost use Rattle.std.specs.Prelude.{◌≡◌, ◌-◌, ◌<◌, ◌≤◌, ◌↔◌, IsTrue, IfErr, OnErr};

use crate::acquire::Acquire;
use crate::open_turn::OpenTurn;
use crate::sem_core::SemCore;
use mea_base::NoMemory;

/// The tests of what a call asks of the core, and the calls in a form that asks for nothing.
impl<W: Drop> SemCore<W> {
    ghost use Rattle.mea_sem_core.specs.Acquire.{demand_of, renewed};
    ghost use Rattle.mea_sem_core.specs.Core.{held_of, IsSound};
    ghost use Rattle.mea_sem_core.specs.Calls.{Belongs, PollsOpen, FindsNoMemory, Cancels, Loses, given_back};

    /// Whether the acquire is one of this core, which `cancel` asks for. It takes no memory.
    pub fn cancel_allowed(&self, acquire: &Acquire) -> bool
        ensures { IsTrue result ↔ Belongs self.now acquire.now }
    {
        self.poll_allowed(acquire)
    }

    /// Whether the acquire is one of this core, which `lose_acquire` asks for. It takes no memory.
    pub fn lose_acquire_allowed(&self, acquire: &Acquire) -> bool
        ensures { IsTrue result ↔ Belongs self.now acquire.now }
    {
        self.poll_allowed(acquire)
    }

    /// Whether `n` permits are held, which `give_back` asks for. It takes no memory.
    pub fn give_back_allowed(&self, n: usize) -> bool
        ensures { IsTrue result ↔ (n ≤ held_of self.now) }
    {
        n <= self.held()
    }

    /// Whether `n` permits are held, which `lose` asks for. It takes no memory.
    pub fn lose_allowed(&self, n: usize) -> bool
        ensures { IsTrue result ↔ (n ≤ held_of self.now) }
    {
        n <= self.held()
    }

    /// `poll_open`, of an acquire that is renewed first where it is not one of this core. `poll` has no such
    /// form, since a renewed acquire opens no semaphore.
    pub fn poll_open_checked(
        &mut self,
        acquire: &mut Acquire,
        waker: W,
    ) -> Result<OpenTurn<W>, (W, NoMemory)>
        ensures allowed { Belongs self.old acquire.old → PollsOpen self.old acquire.old waker result self.new acquire.new }
        ensures renewed { ¬ Belongs self.old acquire.old → PollsOpen self.old (renewed acquire.old) waker result self.new acquire.new }
        ensures no_memory { OnErr result (FindsNoMemory self.old (demand_of acquire.old) self.new) }
        ensures waker { IfErr result (λ e. e.0 ≡ waker) }
        ensures sound { IsSound self.new }
    {
        if !self.poll_allowed(acquire) {
            acquire.renew();
        }
        self.poll_open(acquire, waker)
    }

    /// `cancel`, which does nothing more where the acquire is not one of this core. It takes no memory.
    pub fn cancel_checked(&mut self, acquire: Acquire)
        ensures allowed { Belongs self.old acquire → Cancels self.old acquire self.new }
        ensures refused { ¬ Belongs self.old acquire → self.new ≡ self.old }
    {
        if self.cancel_allowed(&acquire) {
            self.cancel(acquire);
        }
    }

    /// `lose_acquire`, which does nothing more where the acquire is not one of this core. It takes no
    /// memory.
    pub fn lose_acquire_checked(&mut self, acquire: Acquire)
        ensures allowed { Belongs self.old acquire → Loses self.old acquire self.new }
        ensures refused { ¬ Belongs self.old acquire → self.new ≡ self.old }
    {
        if self.lose_acquire_allowed(&acquire) {
            self.lose_acquire(acquire);
        }
    }

    /// `give_back`, which does nothing more where fewer permits are held. It takes no memory.
    pub fn give_back_checked(&mut self, n: usize)
        ensures allowed { n ≤ held_of self.old → self.new ≡ given_back self.old n }
        ensures refused { held_of self.old < n → self.new ≡ self.old }
    {
        if self.give_back_allowed(n) {
            self.give_back(n);
        }
    }

    /// `lose`, which does nothing more where fewer permits are held. It takes no memory.
    pub fn lose_checked(&mut self, n: usize)
        ensures allowed { n ≤ held_of self.old → self.new ≡ record self.old { live = self.old.live - n } }
        ensures refused { held_of self.old < n → self.new ≡ self.old }
    {
        if self.lose_allowed(n) {
            self.lose(n);
        }
    }
}
