ghost use Rattle.std.specs.Prelude.{◌≡◌, ◌≢◌, ◌≤◌, OnErr, OnOk, IfOk, IfSome, IfNone, is_some, not, None, Some, true, false, if◌then◌else◌};
ghost use Rattle.std.specs.FinMap as map;
ghost use Rattle.std.specs.Option.{option_map};
ghost use Rattle.mea_family.specs.Causes.{borrowed_by};
ghost use Rattle.mea_family.specs.Forms.{is_plain};
ghost use Rattle.mea_family.specs.Play.{PartYields, PartRests};
ghost use Rattle.mea_lock_model.specs.Locks.{no_locks, is_named, is_future, is_lock_future, is_condvar_future, is_guard, is_write_guard, was_polled, things_of, plain_of, registered};
ghost use Rattle.mea_lock_model.specs.Actions.{act_in, Make, Begin, Poll, Try, Get, Set, Lower, End, Peek, Put, Take, Drop, Hand, PollUntil, EndWait};
ghost use Rattle.mea_lock_model.specs.Meaning.{cause_at};
ghost use Rattle.mea_lock_model.specs.Valid.{FitGuards};
ghost use Rattle.mea_lock.specs.Accesses.{writes};
ghost use Rattle.mea_lock.specs.Actions.{lock_action, FitsMutex};
ghost use Rattle.mea_lock.specs.Halls.{Acts, ActsQuietly};
ghost use Rattle.mea_lock.specs.Parts.{guard_seen};
ghost use Rattle.mea_lock.specs.Lends.{StandsFor};
ghost use Rattle.mea_lock.specs.Waits.{answer_to, may_go_on, AsksFor};

use crate::access::Access;
use crate::actions::LockAction;
use crate::entries::{FutureEntry, LockEntry};
use crate::guard_entry::GuardEntry;
use crate::lock_core::{LockCore, LoweredCore};
use crate::until::Asked;
use mea_base::{NoMemory, Ready, Turn};
use mea_by_name::{ByName, Roomy};
use mea_family::{Form, Reply, Stop, Word, borrowed_if, unknown_unless, zero_if};
use mea_lock_model::Until;
use std::alloc::Global;
use std::marker::Model;

/// The locks of one kind with their futures and guards, each by the number of the event that made it. Each call
/// costs a few look-ups by name and the wakers that it makes ready.
///
/// A lock stays without its name while an owned thing of it lives.
#[derive(Drop)]
pub struct LockPart<C: LockCore> {
    locks: ByName<LockEntry<C>>,
    futures: ByName<FutureEntry<C>>,
    guards: Roomy<GuardEntry>,
    // The least number that the next event may have, which may be 2^64.
    next: u128,
    alloc: Global,
}

impl<C: LockCore> Model for LockPart<C> {
    ghost use Rattle.mea_family.specs.Play.{Part, part_code};
    ghost use Rattle.mea_lock_model.specs.Locks.{Locks, locks_code};

    ghost Value = { Part Locks };

    ghost coded = { part_code locks_code };

    ghost use Rattle.mea_lock.specs.Parts.{locks_seen, AreKeptLocks};

    ghost view = { λ a. record { hall = locks_seen a.locks a.futures a.guards.things; next = a.next } };

    ghost invariant = { λ a. AreKeptLocks a.locks a.futures a.guards.things a.next };
}

impl<C: LockCore> LockPart<C> {
    /// No lock. It takes no memory.
    pub fn new(alloc: Global) -> Self
        ensures { result ≡ record { hall = no_locks; next = 0 } }
    {
        LockPart {
            locks: ByName::new(alloc),
            futures: ByName::new(alloc),
            guards: Roomy::new(alloc),
            next: 0,
            alloc,
        }
    }

    /// The core of a lock that is named. It takes no memory.
    pub fn core(&self, o: u64) -> Option<&C>
        ensures named { is_some result ≡ is_named self.now.hall o }
        ensures stands { IfSome result (λ core. StandsFor self.now.hall o (C.lock_of core.now)) }
    {
        let entry = self.named_entry(o)?;
        Some(entry.core())
    }

    /// The guards of each lock have no more permits than the lock has. It does nothing.
    pub fn guards_fit(&self)
        ensures { FitGuards self.now.hall }
    {
        let _next = self.next;
    }

    /// Why an action is refused; None where it is not. It takes no memory.
    pub fn cause(&self, action: LockAction) -> Option<Stop>
        ensures { result ≡ cause_at self.now.hall (lock_action action) }
    {
        match action {
            LockAction::Make(_, most) => zero_if(most == 0),
            LockAction::Begin(o, _, _) => unknown_unless(self.is_named(o)),
            LockAction::Poll(f, _) => unknown_unless(self.is_of_condvar(f) == Some(false)),
            LockAction::Try(o, _, _) => unknown_unless(self.is_named(o)),
            LockAction::Get(g) => unknown_unless(self.guard(g).is_some()),
            LockAction::Set(g, _) => unknown_unless(self.write_guard(g).is_some()),
            LockAction::End(x) => match self.is_of_condvar(x) {
                Some(of_condvar) => unknown_unless(!of_condvar),
                None => unknown_unless(self.guard(x).is_some()),
            },
            LockAction::Peek(o) | LockAction::Put(o, _) => self.cause_of_use(o),
            LockAction::Take(o) => self.cause_of_use(o),
            LockAction::Drop(o) => self.cause_of_drop(o),
        }
    }

    /// Does an action, or finds why it is refused. On an error nothing has changed. Memory is taken for what is made, by a
    /// poll and by a try, and by no end.
    pub fn act(
        &mut self,
        number: u64,
        action: LockAction,
        ready: &mut Ready<u64>,
    ) -> Result<Reply, Stop>
        requires next { self.old.next ≤ number }
        requires fits { C.is_only_written ≡ true → FitsMutex action }
        requires room { registered self.old.hall ≤ ready.old.registered }
        ensures { Acts self.old number (lock_action action) result self.new ready.old ready.new }
    {
        match action {
            LockAction::Make(v, most) => self.make(number, v, most),
            LockAction::Begin(o, form, access) => self.begin(number, o, form, access),
            LockAction::Poll(f, waker) => self.poll(number, f, waker, ready),
            LockAction::Try(o, form, access) => self.try_lock(number, o, form, access),
            LockAction::Get(g) => self.get(number, g),
            LockAction::Set(g, v) => self.set(number, g, v),
            LockAction::End(x) => self.end(number, x, ready),
            LockAction::Peek(o) => self.peek(number, o),
            LockAction::Put(o, v) => self.put(number, o, v),
            LockAction::Take(o) => self.take(number, o),
            LockAction::Drop(o) => self.end_name(number, o),
        }
    }

    // What is kept of a lock that is named.
    fn named_entry(&self, o: u64) -> Option<&LockEntry<C>>
        ensures named { is_some result ≡ is_named self.now.hall o }
        ensures things { IfSome result (λ entry. things_of self.now.hall o ≡ entry.now.things) }
        ensures plain { IfSome result (λ entry. plain_of self.now.hall o ≡ entry.now.plain) }
        ensures stands { IfSome result (λ entry. StandsFor self.now.hall o entry.now.lock) }
    {
        let entry = self.locks.get(o)?;
        if entry.is_named() { Some(entry) } else { None }
    }

    fn is_named(&self, o: u64) -> bool
        ensures { result ≡ is_named self.now.hall o }
    {
        self.named_entry(o).is_some()
    }

    // Whether a future is that of a wait on a condition variable, where there is one.
    fn is_of_condvar(&self, f: u64) -> Option<bool>
        ensures none { IfNone result (map.get self.now.hall.futures f ≡ None) }
        ensures some { IfSome result (λ of. (is_future self.now.hall f ≡ true) × (is_lock_future self.now.hall f ≡ not of) × (is_condvar_future self.now.hall f ≡ of)) }
    {
        let future = self.futures.get(f)?;
        Some(future.is_of_condvar())
    }

    /// Whether it is a future of a wait on a condition variable. It takes no memory.
    pub fn is_condvar_future(&self, f: u64) -> bool
        ensures { result ≡ is_condvar_future self.now.hall f }
    {
        self.is_of_condvar(f) == Some(true)
    }

    // The guard of a name.
    fn guard(&self, g: u64) -> Option<GuardEntry>
        ensures { option_map guard_seen result ≡ map.get self.now.hall.guards g }
    {
        self.guards.get(g).copied()
    }

    /// The guard of a name, where it writes. It takes no memory.
    pub fn write_guard(&self, g: u64) -> Option<GuardEntry>
        ensures there { is_some result ≡ is_write_guard self.now.hall g }
        ensures some { IfSome result (λ guard. (map.get self.now.hall.guards g ≡ Some (guard_seen guard)) × (guard.writes ≡ true)) }
    {
        let guard = self.guard(g)?;
        if guard.writes { Some(guard) } else { None }
    }

    // Why a use of the whole lock is refused: it is unknown, or a future or a guard borrows it.
    fn cause_of_use(&self, o: u64) -> Option<Stop>
        ensures is { result ≡ borrowed_by (is_named self.now.hall o) (things_of self.now.hall o) }
        ensures tells { result ≢ Some Stop.NoMemory }
    {
        match self.named_entry(o) {
            Some(entry) => borrowed_if(entry.has_things()),
            None => Some(Stop::Unknown),
        }
    }

    // Why the end of its name is refused: it is unknown, or a plain future or guard borrows it.
    fn cause_of_drop(&self, o: u64) -> Option<Stop>
        ensures is { result ≡ borrowed_by (is_named self.now.hall o) (plain_of self.now.hall o) }
        ensures tells { result ≢ Some Stop.NoMemory }
    {
        match self.named_entry(o) {
            Some(entry) => borrowed_if(entry.has_plain()),
            None => Some(Stop::Unknown),
        }
    }

    // Makes a lock of a value and so many permits. On an error nothing has changed.
    fn make(&mut self, number: u64, value: u64, most: usize) -> Result<Reply, Stop>
        requires next { self.old.next ≤ number }
        requires one { C.is_only_written ≡ true → most ≡ 1 }
        ensures { ActsQuietly self.old number (Make value most) result self.new }
    {
        if most == 0 {
            return Err(Stop::Zero);
        }
        let core = C::make(self.alloc, value, most);
        let Ok(()) = self.locks.insert(number, LockEntry::new(core)) else {
            return Err(Stop::NoMemory);
        };
        self.next = number as u128 + 1;
        Ok(Reply(Word::Made))
    }

    // Makes a future, to read or to write. On an error nothing has changed.
    fn begin(&mut self, number: u64, o: u64, form: Form, access: Access) -> Result<Reply, Stop>
        requires next { self.old.next ≤ number }
        requires writes { C.is_only_written ≡ true → writes access ≡ true }
        ensures { ActsQuietly self.old number (Begin o (is_plain form) (writes access)) result self.new }
    {
        if !self.is_named(o) {
            return Err(Stop::Unknown);
        }
        let plain = form.is_plain();
        let write = access.writes();
        let entry = self.locks.at_mut(o);
        let Ok(()) = self
            .futures
            .insert(number, entry.new_future(o, plain, write))
        else {
            return Err(Stop::NoMemory);
        };
        entry.begin(plain);
        self.next = number as u128 + 1;
        Ok(Reply(Word::Made))
    }

    // Polls a future. Room for the guard is made first, but where what is held keeps the future out. On an error nothing has
    // changed.
    fn poll(
        &mut self,
        number: u64,
        f: u64,
        waker: u64,
        ready: &mut Ready<u64>,
    ) -> Result<Reply, Stop>
        requires next { self.old.next ≤ number }
        requires room { registered self.old.hall ≤ ready.old.registered }
        ensures { Acts self.old number (Poll f waker) result self.new ready.old ready.new }
    {
        let Some(future) = self.futures.get_mut(f) else {
            return Err(Stop::Unknown);
        };
        if future.is_of_condvar() {
            return Err(Stop::Unknown);
        }
        let guard = future.guard();
        let entry = self.locks.at_mut(guard.lock);
        let Ok(()) = make_room(&mut self.guards, entry.may_have(future)) else {
            return Err(Stop::NoMemory);
        };
        match entry.poll(f, future, waker, ready) {
            Err(_) => Err(Stop::NoMemory),
            Ok(Turn::Pending) => {
                self.next = number as u128 + 1;
                Ok(Reply(Word::Pending))
            }
            Ok(Turn::Ready(_)) => {
                self.guards.insert(number, guard);
                let _ = self.futures.remove(f);
                self.next = number as u128 + 1;
                Ok(Reply(Word::Ready))
            }
        }
    }

    /// Hands a guard that writes over to a wait on a condition variable, whose future has the lock instead. On an error
    /// nothing has changed.
    pub fn hand(&mut self, number: u64, g: u64, guard: GuardEntry) -> Result<Reply, NoMemory>
        requires next { self.old.next ≤ number }
        requires there { map.get self.old.hall.guards g ≡ Some (guard_seen guard) }
        requires writes { guard.writes ≡ true }
        ensures ok { IfOk result (λ answer. PartRests registered self.old number (act_in self.old.hall number (Hand g)) answer self.new) }
        ensures err { OnErr result (self.new ≡ self.old) }
    {
        let entry = self.locks.at(guard.lock);
        let Ok(()) = self
            .futures
            .insert(number, entry.holder(guard.lock, guard.plain))
        else {
            return Err(NoMemory);
        };
        let _ = self.guards.remove(g);
        self.next = number as u128 + 1;
        Ok(Reply(Word::Made))
    }

    /// Polls the future of a wait, which gives the lock up again where it goes on at the value. Room for the guard is
    /// made first, but where what is held keeps the future out. On an error nothing has changed.
    pub fn poll_until(
        &mut self,
        number: u64,
        f: u64,
        waker: u64,
        until: Until,
        ready: &mut Ready<u64>,
    ) -> Result<Asked, NoMemory>
        requires next { self.old.next ≤ number }
        requires there { is_condvar_future self.old.hall f ≡ true }
        requires room { registered self.old.hall ≤ ready.old.registered }
        ensures ok { IfOk result (λ asked. PartYields registered self.old number (act_in self.old.hall number (PollUntil f waker until)) (answer_to asked) self.new ready.old ready.new) }
        ensures asked { IfOk result (λ asked. AsksFor asked (was_polled (map.get self.new.hall.futures f))) }
        ensures lays { IfOk result (λ asked. asked ≡ Asked.Lays → may_go_on until ≡ true) }
        ensures err { OnErr result ((self.new ≡ self.old) × (ready.new ≡ ready.old)) }
    {
        let future = self.futures.at_mut(f);
        let guard = future.guard();
        let entry = self.locks.at_mut(guard.lock);
        let Ok(()) = make_room(&mut self.guards, entry.may_have(future)) else {
            return Err(NoMemory);
        };
        match entry.poll_until(f, future, waker, until, ready) {
            Err(_) => Err(NoMemory),
            Ok(Asked::Ready) => {
                self.guards.insert(number, guard);
                let _ = self.futures.remove(f);
                self.next = number as u128 + 1;
                Ok(Asked::Ready)
            }
            Ok(Asked::Asks) => {
                self.next = number as u128 + 1;
                Ok(Asked::Asks)
            }
            Ok(Asked::Lays) => {
                self.next = number as u128 + 1;
                Ok(Asked::Lays)
            }
        }
    }

    // Makes a guard where its permits are free. Room for it is made first. On an error nothing has changed.
    fn try_lock(&mut self, number: u64, o: u64, form: Form, access: Access) -> Result<Reply, Stop>
        requires next { self.old.next ≤ number }
        requires writes { C.is_only_written ≡ true → writes access ≡ true }
        ensures { ActsQuietly self.old number (Try o (is_plain form) (writes access)) result self.new }
    {
        if !self.is_named(o) {
            return Err(Stop::Unknown);
        }
        let plain = form.is_plain();
        let write = access.writes();
        let Ok(()) = self.guards.reserve(1) else {
            return Err(Stop::NoMemory);
        };
        let entry = self.locks.at_mut(o);
        if entry.try_lock(write) {
            entry.begin(plain);
            let guard = GuardEntry {
                lock: o,
                plain,
                writes: write,
            };
            self.guards.insert(number, guard);
            self.next = number as u128 + 1;
            return Ok(Reply(Word::Held));
        }
        self.next = number as u128 + 1;
        Ok(Reply(Word::Lacking))
    }

    // Tells the value, by a guard. It takes no memory.
    fn get(&mut self, number: u64, g: u64) -> Result<Reply, Stop>
        requires { self.old.next ≤ number }
        ensures { ActsQuietly self.old number (Get g) result self.new }
    {
        let Some(guard) = self.guard(g) else {
            return Err(Stop::Unknown);
        };
        let v = self.locks.at(guard.lock).value_by(guard.writes);
        self.next = number as u128 + 1;
        Ok(Reply(Word::Value(v)))
    }

    // Writes the value, by a guard that writes. It takes no memory.
    fn set(&mut self, number: u64, g: u64, v: u64) -> Result<Reply, Stop>
        requires { self.old.next ≤ number }
        ensures { ActsQuietly self.old number (Set g v) result self.new }
    {
        let Some(guard) = self.write_guard(g) else {
            return Err(Stop::Unknown);
        };
        self.locks.at_mut(guard.lock).set_value(v);
        self.next = number as u128 + 1;
        Ok(Reply(Word::Done))
    }

    // Ends a future that waits for the lock alone, or else a guard. It takes no memory.
    fn end(&mut self, number: u64, x: u64, ready: &mut Ready<u64>) -> Result<Reply, Stop>
        requires next { self.old.next ≤ number }
        requires room { registered self.old.hall ≤ ready.old.registered }
        ensures { Acts self.old number (End x) result self.new ready.old ready.new }
    {
        match self.is_of_condvar(x) {
            Some(true) => Err(Stop::Unknown),
            Some(false) => Ok(self.end_wait(number, x, ready)),
            None => self.end_guard(number, x, ready),
        }
    }

    /// Ends a future, also that of a wait on a condition variable. It takes no memory.
    pub fn end_wait(&mut self, number: u64, f: u64, ready: &mut Ready<u64>) -> Reply
        requires next { self.old.next ≤ number }
        requires there { is_future self.old.hall f ≡ true }
        requires room { registered self.old.hall ≤ ready.old.registered }
        ensures { PartYields registered self.old number (act_in self.old.hall number (EndWait f)) result self.new ready.old ready.new }
    {
        let future = self.futures.remove(f);
        let o = future.lock();
        let plain = future.is_plain();
        let entry = self.locks.at_mut(o);
        entry.end_future(future, ready);
        entry.finish(plain);
        let over = entry.is_over();
        self.locks.remove_if(o, over);
        self.next = number as u128 + 1;
        Reply(Word::Done)
    }

    // Ends a guard. It takes no memory.
    fn end_guard(&mut self, number: u64, g: u64, ready: &mut Ready<u64>) -> Result<Reply, Stop>
        requires next { self.old.next ≤ number }
        requires apart { map.get self.old.hall.futures g ≡ None }
        requires room { registered self.old.hall ≤ ready.old.registered }
        ensures { Acts self.old number (End g) result self.new ready.old ready.new }
    {
        let Some(guard) = self.guards.take(g) else {
            return Err(Stop::Unknown);
        };
        let entry = self.locks.at_mut(guard.lock);
        entry.unlock(guard.writes, ready);
        entry.finish(guard.plain);
        let over = entry.is_over();
        self.locks.remove_if(guard.lock, over);
        self.next = number as u128 + 1;
        Ok(Reply(Word::Done))
    }

    // Tells the value of a lock that has nothing. It takes no memory.
    fn peek(&mut self, number: u64, o: u64) -> Result<Reply, Stop>
        requires { self.old.next ≤ number }
        ensures { ActsQuietly self.old number (Peek o) result self.new }
    {
        if let Some(stop) = self.cause_of_use(o) {
            return Err(stop);
        }
        let v = self.locks.at_mut(o).idle_value();
        self.next = number as u128 + 1;
        Ok(Reply(Word::Value(v)))
    }

    // Writes the value of a lock that has nothing. It takes no memory.
    fn put(&mut self, number: u64, o: u64, v: u64) -> Result<Reply, Stop>
        requires { self.old.next ≤ number }
        ensures { ActsQuietly self.old number (Put o v) result self.new }
    {
        if let Some(stop) = self.cause_of_use(o) {
            return Err(stop);
        }
        self.locks.at_mut(o).set_idle_value(v);
        self.next = number as u128 + 1;
        Ok(Reply(Word::Done))
    }

    // Takes the value of a lock out that has nothing; the lock is gone. It takes no memory.
    fn take(&mut self, number: u64, o: u64) -> Result<Reply, Stop>
        requires { self.old.next ≤ number }
        ensures { ActsQuietly self.old number (Take o) result self.new }
    {
        if let Some(stop) = self.cause_of_use(o) {
            return Err(stop);
        }
        let v = self.locks.remove(o).into_value();
        self.next = number as u128 + 1;
        Ok(Reply(Word::Value(v)))
    }

    // Ends the name of a lock. It takes no memory.
    fn end_name(&mut self, number: u64, o: u64) -> Result<Reply, Stop>
        requires { self.old.next ≤ number }
        ensures { ActsQuietly self.old number (Drop o) result self.new }
    {
        if let Some(stop) = self.cause_of_drop(o) {
            return Err(stop);
        }
        let entry = self.locks.at_mut(o);
        entry.unname();
        let over = entry.is_over();
        self.locks.remove_if(o, over);
        self.next = number as u128 + 1;
        Ok(Reply(Word::Done))
    }
}

impl<C: LoweredCore> LockPart<C> {
    /// A guard that writes reads from now on. It takes no memory.
    pub fn lower(&mut self, number: u64, g: u64, ready: &mut Ready<u64>) -> Result<Reply, Stop>
        requires next { self.old.next ≤ number }
        requires room { registered self.old.hall ≤ ready.old.registered }
        ensures { Acts self.old number (Lower g) result self.new ready.old ready.new }
    {
        let Some(guard) = self.write_guard(g) else {
            return Err(Stop::Unknown);
        };
        self.guards.at_mut(g).writes = false;
        self.locks.at_mut(guard.lock).lower(ready);
        self.next = number as u128 + 1;
        Ok(Reply(Word::Done))
    }
}

// Makes room for a guard, where one may be made. On an error no guard has changed.
fn make_room(guards: &mut Roomy<GuardEntry>, may: bool) -> Result<(), NoMemory>
    ensures room { OnOk result (may ≡ true → 1 ≤ guards.new.spare) }
    ensures things { guards.new.things ≡ guards.old.things }
{
    if may { guards.reserve(1) } else { Ok(()) }
}
