ghost use Rattle.std.specs.Prelude.{ℕ, ◌≡◌, ◌≢◌, ◌≤◌, ◌+◌, ◌&&◌, IfSome, is_some, Some};
ghost use Rattle.mea_family.specs.Causes.{borrowed_by};
ghost use Rattle.mea_base.specs.Ready.{Waking};
ghost use Rattle.mea_family.specs.Play.{Part};
ghost use Rattle.mea_lock_model.specs.Condvars.{no_condvars, is_condvar, is_wait, waits_of, until_of, registered};
ghost use Rattle.mea_lock_model.specs.Locks as locks;
ghost use Rattle.mea_lock_model.specs.Locks.{Locks, is_condvar_future};
ghost use Rattle.mea_lock_model.specs.declared.cond_action.CondAction.TheVariants.{Make, Wait, Poll, One, All, End, Drop};
ghost use Rattle.mea_lock_model.specs.CondActions.{cause_with};
ghost use Rattle.mea_lock.specs.Halls.{ActsOn};
ghost use Rattle.mea_lock.specs.CondEntries.{wait_seen};
ghost use Rattle.mea_lock.specs.Lends.{ListsAs};

use crate::condvar_entry::CondvarEntry;
use crate::part::LockPart;
use crate::until::{Asked, may_go_on};
use crate::wait_entry::WaitEntry;
use mea_base::Ready;
use mea_by_name::{ByName, NamedWaker};
use mea_family::{Reply, Stop, Word, borrowed_if, unknown_unless};
use mea_lock_core::{CondvarCore, MutexCore};
use mea_lock_model::{CondAction, Until};
use std::alloc::Global;
use std::marker::Model;

/// The mutexes of the waits.
pub type Mutexes = LockPart<MutexCore<u64, NamedWaker>>;

/// The condition variables with their waits, each by the number of the event that made it. Each call costs a few look-ups
/// by name and the wakers that it makes ready.
///
/// What a wait has at its mutex is kept with the mutexes, under the name of the wait.
#[derive(Drop)]
pub struct WaitPart {
    condvars: ByName<CondvarEntry>,
    waits: ByName<WaitEntry>,
    // The least number that the next event may have, which may be 2^64.
    next: u128,
    alloc: Global,
}

impl Model for WaitPart {
    ghost use Rattle.mea_family.specs.Play.{Part, part_code};
    ghost use Rattle.mea_lock_model.specs.Condvars.{Condvars, condvars_code};

    ghost Value = { Part Condvars };

    ghost coded = { part_code condvars_code };

    ghost use Rattle.mea_lock.specs.CondParts.{condvars_seen, AreKept};

    ghost view = { λ a. record { hall = condvars_seen a.condvars a.waits; next = a.next } };

    ghost invariant = { λ a. AreKept a.condvars a.waits a.next };
}

// When the wait is ready that has the lock.
fn until_of(wait: &WaitEntry) -> Until
    ensures { result ≡ until_of (wait_seen wait.now) }
{
    match wait.bound {
        Some(bound) => Until::Reached(bound),
        None => {
            if wait.polled {
                Until::Held
            } else {
                Until::Never
            }
        }
    }
}

impl WaitPart {
    /// No condition variable. It takes no memory.
    pub fn new(alloc: Global) -> Self
        ensures { result ≡ record { hall = no_condvars; next = 0 } }
    {
        WaitPart {
            condvars: ByName::new(alloc),
            waits: ByName::new(alloc),
            next: 0,
            alloc,
        }
    }

    /// The core of a condition variable. It takes no memory.
    pub fn core(&self, c: u64) -> Option<&CondvarCore<NamedWaker>>
        ensures there { is_some result ≡ is_condvar self.now.hall c }
        ensures lists { IfSome result (λ core. ListsAs self.now.hall c core.now) }
    {
        let entry = self.condvars.get(c)?;
        Some(entry.core())
    }

    /// Why an action is refused; None where it is not. It takes no memory.
    pub fn cause(&self, mutexes: &Mutexes, action: CondAction) -> Option<Stop>
        ensures { result ≡ cause_with mutexes.now.hall self.now.hall action }
    {
        match action {
            CondAction::Make => None,
            CondAction::Wait(c, g, _) => unknown_unless(
                self.is_condvar(c) && mutexes.write_guard(g).is_some(),
            ),
            CondAction::Poll(f, _) => unknown_unless(self.lives(mutexes, f)),
            CondAction::One(c) | CondAction::All(c) => unknown_unless(self.is_condvar(c)),
            CondAction::End(f) => unknown_unless(self.lives(mutexes, f)),
            CondAction::Drop(c) => self.cause_of_drop(c),
        }
    }

    /// Does an action, or finds why it is refused. On an error nothing has changed. Memory is taken for what is made and by a
    /// poll.
    pub fn act(
        &mut self,
        mutexes: &mut Mutexes,
        number: u64,
        action: CondAction,
        ready: &mut Ready<u64>,
    ) -> Result<Reply, Stop>
        requires next { self.old.next ≤ number }
        requires mutexes { mutexes.old.next ≤ number }
        requires room { locks.registered mutexes.old.hall + registered self.old.hall ≤ ready.old.registered }
        ensures { ActsOn mutexes.old self.old number action result mutexes.new self.new ready.old ready.new }
    {
        match action {
            CondAction::Make => self.make(number),
            CondAction::Wait(c, g, bound) => self.begin(mutexes, number, c, g, bound),
            CondAction::Poll(f, waker) => self.poll(mutexes, number, f, waker, ready),
            CondAction::One(c) => self.notify_one(number, c, ready),
            CondAction::All(c) => self.notify_all(number, c, ready),
            CondAction::End(f) => self.end(mutexes, number, f, ready),
            CondAction::Drop(c) => self.end_name(number, c),
        }
    }

    fn is_condvar(&self, c: u64) -> bool
        ensures { result ≡ is_condvar self.now.hall c }
    {
        self.condvars.has(c)
    }

    fn is_wait(&self, f: u64) -> bool
        ensures { result ≡ is_wait self.now.hall f }
    {
        self.waits.has(f)
    }

    // Whether it is a wait, and has its future at its mutex.
    fn lives(&self, mutexes: &Mutexes, f: u64) -> bool
        ensures { result ≡ is_wait self.now.hall f && is_condvar_future mutexes.now.hall f }
    {
        self.is_wait(f) && mutexes.is_condvar_future(f)
    }

    // Why a condition variable may not be dropped: it is unknown, or a wait borrows it.
    fn cause_of_drop(&self, c: u64) -> Option<Stop>
        ensures is { result ≡ borrowed_by (is_condvar self.now.hall c) (waits_of self.now.hall c) }
        ensures tells { result ≢ Some Stop.NoMemory }
    {
        match self.condvars.get(c) {
            Some(entry) => borrowed_if(entry.has_waits()),
            None => Some(Stop::Unknown),
        }
    }

    // Makes a condition variable. On an error nothing has changed.
    fn make(&mut self, number: u64) -> Result<Reply, Stop>
        requires { self.old.next ≤ number }
        ensures { (m : Part Locks) (w : Waking ℕ) → m.next ≤ number → ActsOn m self.old number Make result m self.new w w }
    {
        let Ok(()) = self.condvars.insert(number, CondvarEntry::new(self.alloc)) else {
            return Err(Stop::NoMemory);
        };
        self.next = number as u128 + 1;
        Ok(Reply(Word::Made))
    }

    // Makes a wait, which takes a guard of a mutex over. On an error nothing has changed.
    fn begin(
        &mut self,
        mutexes: &mut Mutexes,
        number: u64,
        c: u64,
        g: u64,
        bound: Option<u64>,
    ) -> Result<Reply, Stop>
        requires next { self.old.next ≤ number }
        requires mutexes { mutexes.old.next ≤ number }
        ensures { (w : Waking ℕ) → ActsOn mutexes.old self.old number (Wait c g bound) result mutexes.new self.new w w }
    {
        if !self.is_condvar(c) {
            return Err(Stop::Unknown);
        }
        let Some(guard) = mutexes.write_guard(g) else {
            return Err(Stop::Unknown);
        };
        let wait = WaitEntry {
            condvar: c,
            bound,
            polled: false,
            number: None,
            alone: false,
        };
        let Ok(()) = self.waits.insert(number, wait) else {
            return Err(Stop::NoMemory);
        };
        let Ok(answer) = mutexes.hand(number, g, guard) else {
            let _ = self.waits.remove(number);
            return Err(Stop::NoMemory);
        };
        self.condvars.at_mut(c).begin();
        self.next = number as u128 + 1;
        Ok(answer)
    }

    // Polls a wait. Where it may go on waiting its place in the list is taken first, and given up again where it asks for the
    // lock or is over. On an error nothing has changed.
    fn poll(
        &mut self,
        mutexes: &mut Mutexes,
        number: u64,
        f: u64,
        waker: u64,
        ready: &mut Ready<u64>,
    ) -> Result<Reply, Stop>
        requires next { self.old.next ≤ number }
        requires mutexes { mutexes.old.next ≤ number }
        requires room { locks.registered mutexes.old.hall + registered self.old.hall ≤ ready.old.registered }
        ensures { ActsOn mutexes.old self.old number (Poll f waker) result mutexes.new self.new ready.old ready.new }
    {
        if !mutexes.is_condvar_future(f) {
            return Err(Stop::Unknown);
        }
        let Some(wait) = self.waits.get_mut(f) else {
            return Err(Stop::Unknown);
        };
        let entry = self.condvars.at_mut(wait.condvar);
        if entry.is_waiting_under(wait.number) {
            entry.rewake_under(wait.number, f, waker);
            self.next = number as u128 + 1;
            return Ok(Reply(Word::Pending));
        }
        let until = until_of(wait);
        let Ok(place) = entry.list_if(may_go_on(until), f, waker, ready) else {
            return Err(Stop::NoMemory);
        };
        let Ok(asked) = mutexes.poll_until(number, f, waker, until, ready) else {
            entry.unlist_under(place, ready);
            return Err(Stop::NoMemory);
        };
        entry.forget_under(wait.number);
        self.next = number as u128 + 1;
        match asked {
            Asked::Lays => {
                wait.list(place);
                Ok(Reply(Word::Pending))
            }
            Asked::Asks => {
                entry.unlist_under(place, ready);
                wait.ask();
                Ok(Reply(Word::Pending))
            }
            Asked::Ready => {
                entry.unlist_under(place, ready);
                entry.finish();
                let _ = self.waits.remove(f);
                Ok(Reply(Word::Ready))
            }
        }
    }

    // Notifies the first that waits. It takes no memory.
    fn notify_one(&mut self, number: u64, c: u64, ready: &mut Ready<u64>) -> Result<Reply, Stop>
        requires next { self.old.next ≤ number }
        requires room { registered self.old.hall ≤ ready.old.registered }
        ensures { (m : Part Locks) → m.next ≤ number → ActsOn m self.old number (One c) result m self.new ready.old ready.new }
    {
        if !self.is_condvar(c) {
            return Err(Stop::Unknown);
        }
        self.next = number as u128 + 1;
        let Some(f) = self.condvars.at_mut(c).notify_one(ready) else {
            return Ok(Reply(Word::Done));
        };
        self.waits.at_mut(f).alone = true;
        Ok(Reply(Word::Done))
    }

    // Notifies each that waits, in their order. It takes no memory.
    fn notify_all(&mut self, number: u64, c: u64, ready: &mut Ready<u64>) -> Result<Reply, Stop>
        requires next { self.old.next ≤ number }
        requires room { registered self.old.hall ≤ ready.old.registered }
        ensures { (m : Part Locks) → m.next ≤ number → ActsOn m self.old number (All c) result m self.new ready.old ready.new }
    {
        if !self.is_condvar(c) {
            return Err(Stop::Unknown);
        }
        self.condvars.at_mut(c).notify_all(ready);
        self.next = number as u128 + 1;
        Ok(Reply(Word::Done))
    }

    // Ends a wait: what it has at its mutex ends first, and then it waits no more, or passes on that it was notified
    // alone. It takes no memory.
    fn end(
        &mut self,
        mutexes: &mut Mutexes,
        number: u64,
        f: u64,
        ready: &mut Ready<u64>,
    ) -> Result<Reply, Stop>
        requires next { self.old.next ≤ number }
        requires mutexes { mutexes.old.next ≤ number }
        requires room { locks.registered mutexes.old.hall + registered self.old.hall ≤ ready.old.registered }
        ensures { ActsOn mutexes.old self.old number (End f) result mutexes.new self.new ready.old ready.new }
    {
        if !self.lives(mutexes, f) {
            return Err(Stop::Unknown);
        }
        let answer = mutexes.end_wait(number, f, ready);
        let wait = self.waits.remove(f);
        let entry = self.condvars.at_mut(wait.condvar);
        entry.finish();
        self.next = number as u128 + 1;
        if entry.is_waiting_under(wait.number) {
            entry.unlist_under(wait.number, ready);
            return Ok(answer);
        }
        entry.forget_under(wait.number);
        if !wait.alone {
            return Ok(answer);
        }
        let Some(next) = entry.notify_one(ready) else {
            return Ok(answer);
        };
        self.waits.at_mut(next).alone = true;
        Ok(answer)
    }

    // Ends a condition variable that has no wait. It takes no memory.
    fn end_name(&mut self, number: u64, c: u64) -> Result<Reply, Stop>
        requires { self.old.next ≤ number }
        ensures { (m : Part Locks) (w : Waking ℕ) → m.next ≤ number → ActsOn m self.old number (Drop c) result m self.new w w }
    {
        if let Some(stop) = self.cause_of_drop(c) {
            return Err(stop);
        }
        let _ = self.condvars.remove(c);
        self.next = number as u128 + 1;
        Ok(Reply(Word::Done))
    }
}
