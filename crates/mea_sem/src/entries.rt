ghost use Rattle.std.specs.Prelude.{◌≡◌, ◌≢◌, ◌+◌, ◌-◌, ◌<◌, ◌≤◌, ◌^◌, ◌++◌, ◌⊎◌, [], length, min, cond, ℕ, true, false, Some, IsOk, OnOk, OnErr, IfOk, IfErr, MatchResult};
ghost use Rattle.mea_base.specs.Queue.{granted_in};
ghost use Rattle.mea_sem_core.specs.Acquire.{demand_of};
ghost use Rattle.mea_sem_core.specs.Core.{held_of, paid_of, poured, wakers_of, paid_waiting, debts, closed_core};
ghost use Rattle.mea_sem_core.specs.Calls.{Belongs, IsRefused, Queues, after_refusal, forgetting, forgetting_exactly};

use crate::actions::Action;
use crate::moving::hand_on;
use mea_base::{NoMemory, Ready};
use mea_family::{Answer, Ledger, Stop, one_if};
use mea_sem_core::{Acquire, SemCore};

/// What a hall keeps of a semaphore.
#[derive(Drop)]
pub struct SemaphoreEntry {
    pub core: SemCore<u64>,
    pub made: u64,
    pub released: u128,
    pub forgotten: u128,
    pub named: bool,
    // How many plain futures and plain permits it has, and how many futures and permits.
    pub plain: u128,
    pub things: u128,
}

/// What a hall keeps of a semaphore of which nothing is left: its name and its account.
#[derive(Clone, Copy)]
pub struct EndedEntry {
    pub released: u128,
    pub forgotten: u128,
    pub made: u64,
    pub free: usize,
    pub name: u64,
    pub closed: bool,
}

/// What a hall keeps of a future.
#[derive(Drop)]
pub struct FutureEntry {
    pub semaphore: u64,
    pub acquire: Acquire,
    pub plain: bool,
    pub forgets: bool,
}

/// What a hall keeps of a permit.
#[derive(Clone, Copy)]
pub struct PermitEntry {
    pub semaphore: u64,
    pub size: usize,
    pub plain: bool,
}

impl FutureEntry {
    /// The permit that it becomes.
    pub fn permit(&self) -> PermitEntry
        ensures { result ≡ record { semaphore = self.now.semaphore; size = demand_of self.now.acquire; plain = self.now.plain } }
    {
        PermitEntry {
            semaphore: self.semaphore,
            size: demand(&self.acquire),
            plain: self.plain,
        }
    }

    /// Whether it was never polled.
    pub fn is_new(&self) -> bool
        ensures new { result ≡ true → (d : ℕ) × (self.now.acquire ≡ Acquire.New d) }
        ensures polled { result ≡ false → (d : ℕ) → self.now.acquire ≢ Acquire.New d }
    {
        matches!(self.acquire, Acquire::New { .. })
    }
}

impl SemaphoreEntry {
    ghost use Rattle.mea_sem.specs.Entries.{IsOver, account_of, ledger_of_entry};

    /// Refuses what names the semaphore, where it is not named any more.
    pub fn known(&self) -> Result<(), Stop>
        ensures known { OnOk result (self.now.named ≡ true) }
        ensures unknown { IfErr result (λ stop. (self.now.named ≡ false) × (stop ≡ Stop.Unknown)) }
    {
        if self.named {
            Ok(())
        } else {
            Err(Stop::Unknown)
        }
    }

    /// Whether nothing is left of it but its account: it has no name, no future and no permit, and nobody waits.
    pub fn is_over(&self) -> bool
        ensures { result ≡ true → IsOver self.now }
    {
        !self.named && self.things == 0 && self.core.queue_len() == 0
    }

    /// Its account, under its name.
    pub fn account(&self, name: u64) -> EndedEntry
        ensures { result ≡ account_of self.now name }
    {
        EndedEntry {
            released: self.released,
            forgotten: self.forgotten,
            made: self.made,
            free: self.core.available_permits(),
            name,
            closed: self.core.is_closed(),
        }
    }

    /// Takes at most `n` free permits away for ever, and tells how many.
    pub fn forget(&mut self, n: usize) -> usize
        requires { self.old.forgotten + n < 2 ^ 128 }
        ensures is { self.new ≡ record self.old { core = forgetting self.old.core n; forgotten = self.old.forgotten + min n self.old.core.free } }
        ensures taken { result ≡ min n self.old.core.free }
        ensures within { result ≤ self.old.core.live }
        ensures held { held_of self.new.core ≡ held_of self.old.core }
    {
        let taken = self.core.forget(n);
        self.forgotten += taken as u128;
        taken
    }

    /// Takes `n` permits away for ever, those that are not free as a debt.
    pub fn forget_exact(&mut self, n: usize) -> Result<(), NoMemory>
        requires { self.old.forgotten + n < 2 ^ 128 }
        ensures is { OnOk result (self.new ≡ record self.old { core = forgetting_exactly self.old.core n; forgotten = self.old.forgotten + n }) }
        ensures held { held_of self.new.core ≡ held_of self.old.core }
        ensures within { min n self.old.core.free ≤ self.old.core.live }
        ensures err { OnErr result (self.new ≡ self.old) }
    {
        let _live = self.core.live();
        self.core.forget_exact(n)?;
        self.forgotten += n as u128;
        Ok(())
    }

    /// Whether it is open and has `n` free permits.
    pub fn offers(&self, n: usize) -> bool
        ensures open_still { result ≡ true → self.now.core.closed ≡ false }
        ensures enough { result ≡ true → n ≤ self.now.core.free }
        ensures lacks { result ≡ false → (self.now.core.closed ≡ true) ⊎ (self.now.core.free < n) }
    {
        !self.core.is_closed() && n <= self.core.available_permits()
    }

    /// Takes `n` permits, which are free, for a permit, where the semaphore is open.
    pub fn take(&mut self, n: usize, plain: bool)
        requires is_open { self.old.core.closed ≡ false }
        requires free { n ≤ self.old.core.free }
        requires few { self.old.plain + 1 < 2 ^ 128 }
        requires few_things { self.old.things + 1 < 2 ^ 128 }
        ensures is { self.new ≡ record self.old { core = record self.old.core { free = self.old.core.free - n }; plain = self.old.plain + cond plain 1 0; things = self.old.things + 1 } }
        ensures held { held_of self.new.core ≡ held_of self.old.core + n }
    {
        let _taken = self.core.try_acquire(n);
        self.count(plain);
    }

    /// Ends a permit of this size, and gives nothing back.
    pub fn lose(&mut self, n: usize, plain: bool)
        requires held { n ≤ held_of self.old.core }
        requires plain { cond plain 1 0 ≤ self.old.plain }
        requires thing { 1 ≤ self.old.things }
        requires tally { self.old.forgotten + n < 2 ^ 128 }
        ensures is { self.new ≡ record self.old { core = record self.old.core { live = self.old.core.live - n }; forgotten = self.old.forgotten + n; plain = self.old.plain - cond plain 1 0; things = self.old.things - 1 } }
        ensures held { held_of self.new.core + n ≡ held_of self.old.core }
    {
        self.core.lose(n);
        self.forgotten += n as u128;
        self.discount(plain);
    }

    /// Adds `n` permits, and hands the wakers on.
    pub fn release(&mut self, n: usize, ready: &mut Ready<u64>)
        requires fits { self.old.core.live + n < 2 ^ 64 }
        requires tally { self.old.released + n < 2 ^ 128 }
        requires quiet { self.old.core.wakes ≡ [] }
        requires room { length (wakers_of (granted_in self.old.core.queue n)) ≤ ready.old.registered }
        ensures is { self.new ≡ record self.old { core = record (poured self.old.core n) { wakes = [] }; released = self.old.released + n } }
        ensures held { held_of self.new.core ≡ held_of self.old.core }
        ensures moved { ready.new.wakers ≡ ready.old.wakers ++ wakers_of (granted_in self.old.core.queue n) }
        ensures counted { ready.new.registered + length (wakers_of (granted_in self.old.core.queue n)) ≡ ready.old.registered }
    {
        match self.core.release(n) {
            Err(_) => unreachable!(),
            Ok(()) => {
                self.released += n as u128;
                hand_on(&mut self.core, ready);
            }
        }
    }

    /// Ends a permit of this size, which is poured, and hands the wakers on.
    pub fn give_back(&mut self, n: usize, plain: bool, ready: &mut Ready<u64>)
        requires held { n ≤ held_of self.old.core }
        requires plain { cond plain 1 0 ≤ self.old.plain }
        requires thing { 1 ≤ self.old.things }
        requires quiet { self.old.core.wakes ≡ [] }
        requires room { length (wakers_of (granted_in self.old.core.queue n)) ≤ ready.old.registered }
        ensures is { self.new ≡ record self.old { core = record (poured (record self.old.core { live = self.old.core.live - n }) n) { wakes = [] }; plain = self.old.plain - cond plain 1 0; things = self.old.things - 1 } }
        ensures held { held_of self.new.core + n ≡ held_of self.old.core }
        ensures moved { ready.new.wakers ≡ ready.old.wakers ++ wakers_of (granted_in self.old.core.queue n) }
        ensures counted { ready.new.registered + length (wakers_of (granted_in self.old.core.queue n)) ≡ ready.old.registered }
    {
        self.core.give_back(n);
        self.discount(plain);
        hand_on(&mut self.core, ready);
    }

    /// The account of the semaphore. What is paid and owed follows from the other numbers.
    pub fn ledger(&self) -> Ledger
        requires account { self.now.core.live + self.now.forgotten ≡ self.now.made + self.now.released + debts self.now.core.queue }
        requires few { self.now.core.live + self.now.forgotten < 2 ^ 128 }
        ensures is { result ≡ ledger_of_entry self.now }
        ensures total { self.now.core.free + held_of self.now.core + paid_of self.now.core ≡ self.now.core.live }
    {
        let live = self.core.live() as u128;
        let free = self.core.available_permits() as u128;
        let held = self.core.held() as u128;
        let made = self.made as u128;
        Ledger {
            made,
            released: self.released,
            owed: live + self.forgotten - made - self.released,
            free,
            held,
            paid: live - free - held,
            forgotten: self.forgotten,
        }
    }

    /// Counts a new thing.
    pub fn count(&mut self, plain: bool)
        requires few { self.old.plain + 1 < 2 ^ 128 }
        requires few_things { self.old.things + 1 < 2 ^ 128 }
        ensures { self.new ≡ record self.old { plain = self.old.plain + cond plain 1 0; things = self.old.things + 1 } }
    {
        self.plain += one_if(plain);
        self.things += 1;
    }

    /// Counts a thing that is gone.
    pub fn discount(&mut self, plain: bool)
        requires plain { cond plain 1 0 ≤ self.old.plain }
        requires thing { 1 ≤ self.old.things }
        ensures { self.new ≡ record self.old { plain = self.old.plain - cond plain 1 0; things = self.old.things - 1 } }
    {
        self.plain -= one_if(plain);
        self.things -= 1;
    }
}

impl SemaphoreEntry {
    ghost use Rattle.mea_sem.specs.Actions.{Finds, Refuses, Acts, woken_by};
    ghost use Rattle.mea_sem.specs.Kept.{wakers_in};

    /// Refuses what the semaphore does not allow, want of memory apart.
    #[inline(always)]
    fn allows(&self, action: Action) -> Result<(), Stop>
        ensures known { OnOk result (self.now.named ≡ true) }
        ensures finds { OnOk result (Finds self.now action) }
        ensures refused { IfErr result (λ stop. ((self.now.named ≡ false) × (stop ≡ Stop.Unknown)) ⊎ ((self.now.named ≡ true) × Refuses self.now action stop)) }
    {
        self.known()?;
        match action {
            Action::Release(n) => match self.core.live().checked_add(n as usize) {
                Some(_) => Ok(()),
                None => Err(Stop::Overflow),
            },
            Action::EndName if self.plain > 0 => Err(Stop::Borrowed),
            Action::EndName => Ok(()),
            _ => Ok(()),
        }
    }

    /// Does an action, and hands the wakers on. Where it is refused, nothing has changed.
    #[inline(always)]
    pub fn act(&mut self, action: Action, ready: &mut Ready<u64>) -> Result<Answer, Stop>
        requires forgotten { self.old.forgotten + 2 ^ 64 ≤ 2 ^ 128 }
        requires released { self.old.released + 2 ^ 64 ≤ 2 ^ 128 }
        requires quiet { self.old.core.wakes ≡ [] }
        requires room { wakers_in self.old.core.queue ≤ ready.old.registered }
        requires account { self.old.core.live + self.old.forgotten ≡ self.old.made + self.old.released + debts self.old.core.queue }
        requires few { self.old.core.live + self.old.forgotten < 2 ^ 128 }
        ensures known { OnOk result (self.old.named ≡ true) }
        ensures finds { OnOk result (Finds self.old action) }
        ensures acts { IfOk result (λ answer. Acts self.old action answer self.new) }
        ensures held { held_of self.new.core ≡ held_of self.old.core }
        ensures moved { OnOk result (ready.new.wakers ≡ ready.old.wakers ++ woken_by self.old action) }
        ensures counted { OnOk result (ready.new.registered + length (woken_by self.old action) ≡ ready.old.registered) }
        ensures refused { IfErr result (λ stop. ((self.old.named ≡ false) × (stop ≡ Stop.Unknown)) ⊎ ((self.old.named ≡ true) × Refuses self.old action stop)) }
        ensures err { OnErr result ((self.new ≡ self.old) × (ready.new ≡ ready.old)) }
    {
        self.allows(action)?;
        match action {
            Action::Free => Ok(Answer::Free(self.core.available_permits() as u64)),
            Action::Forget(n) => Ok(Answer::Forgot(self.forget(n as usize) as u64)),
            Action::ForgetExact(n) => {
                self.forget_exact(n as usize)?;
                Ok(Answer::Done)
            }
            Action::Release(n) => {
                self.release(n as usize, ready);
                Ok(Answer::Done)
            }
            Action::TryAndForget(n) => {
                if !self.offers(n as usize) {
                    return Ok(Answer::No);
                }
                let _all = self.forget(n as usize);
                Ok(Answer::Yes)
            }
            Action::EndName => {
                self.named = false;
                Ok(Answer::Done)
            }
            Action::Close => {
                self.close(ready);
                Ok(Answer::Done)
            }
            Action::Closed if self.core.is_closed() => Ok(Answer::Yes),
            Action::Closed => Ok(Answer::No),
            Action::Ledger => Ok(Answer::Account(self.ledger())),
        }
    }
}

impl SemaphoreEntry {
    ghost use Rattle.mea_sem.specs.Entries.{IsReady, Waits, WaitsOn, WaitedFor, finished, Ends, close_wakes};
    ghost use Rattle.mea_sem.specs.Store.{IsOpen};
    ghost use Rattle.mea_sem.specs.Kept.{wakers_in};

    /// Whether the next poll of the acquire is ready. If not, it waits or is refused.
    pub fn is_ready(&self, acquire: &Acquire) -> bool
        requires belongs { Belongs self.now.core acquire.now }
        requires is_open { IsOpen acquire.now }
        ensures ready { result ≡ true → IsReady self.now.core acquire.now }
        ensures waits { result ≡ false → self.now.core.closed ≡ false → Waits self.now.core acquire.now }
        ensures refused { result ≡ false → self.now.core.closed ≡ true → IsRefused self.now.core acquire.now }
    {
        let closed = self.core.is_closed();
        match *acquire {
            Acquire::New { demand } => !closed && demand <= self.core.available_permits(),
            _ => self.core.is_granted(acquire),
        }
    }

    /// Polls an acquire that is ready.
    pub fn finish(&mut self, acquire: &mut Acquire, waker: u64)
        requires { IsReady self.old.core acquire.old }
        ensures is { self.new ≡ record self.old { core = finished self.old.core acquire.old } }
        ensures held { held_of self.new.core ≡ held_of self.old.core + demand_of acquire.old }
    {
        let _turn = self.core.poll_open(acquire, waker);
    }

    /// Polls an acquire that a closed semaphore refuses.
    pub fn refuse(&mut self, acquire: &mut Acquire, waker: u64, plain: bool)
        requires refused { IsRefused self.old.core acquire.old }
        requires plain { cond plain 1 0 ≤ self.old.plain }
        requires thing { 1 ≤ self.old.things }
        ensures is { self.new ≡ record self.old { core = after_refusal self.old.core acquire.old; plain = self.old.plain - cond plain 1 0; things = self.old.things - 1 } }
        ensures held { held_of self.new.core ≡ held_of self.old.core }
    {
        let _turn = self.core.poll_open(acquire, waker);
        self.discount(plain);
    }

    /// Polls an acquire that is ready, and takes its permits away for ever.
    pub fn finish_forgetting(&mut self, acquire: &mut Acquire, waker: u64, plain: bool)
        requires ready { IsReady self.old.core acquire.old }
        requires plain { cond plain 1 0 ≤ self.old.plain }
        requires thing { 1 ≤ self.old.things }
        requires tally { self.old.forgotten + demand_of acquire.old < 2 ^ 128 }
        ensures is { self.new ≡ record self.old { core = record (finished self.old.core acquire.old) { live = (finished self.old.core acquire.old).live - demand_of acquire.old }; forgotten = self.old.forgotten + demand_of acquire.old; plain = self.old.plain - cond plain 1 0; things = self.old.things - 1 } }
        ensures rises { held_of (finished self.old.core acquire.old) ≡ held_of self.old.core + demand_of acquire.old }
        ensures held { held_of self.new.core ≡ held_of self.old.core }
    {
        let demand = demand(acquire);
        self.finish(acquire, waker);
        self.lose(demand, plain);
    }

    /// Polls a new acquire that has to wait. Its waker is counted before it is registered. Where there is no memory, nothing
    /// has changed.
    pub fn queue(
        &mut self,
        acquire: &mut Acquire,
        waker: u64,
        ready: &mut Ready<u64>,
    ) -> Result<(), NoMemory>
        requires new { (demand : ℕ) × (acquire.old ≡ Acquire.New demand) }
        requires waits { Waits self.old.core acquire.old }
        ensures queued { OnOk result ((number : ℕ) × Queues self.old.core self.new.core (demand_of acquire.old) waker number × (acquire.new ≡ Acquire.Queued (demand_of acquire.old) number)) }
        ensures rest { OnOk result (self.new ≡ record self.old { core = self.new.core }) }
        ensures held { OnOk result (held_of self.new.core ≡ held_of self.old.core) }
        ensures counted { OnOk result (ready.new ≡ record ready.old { registered = ready.old.registered + 1 }) }
        ensures err { OnErr result ((self.new ≡ self.old) × (acquire.new ≡ acquire.old) × (ready.new ≡ ready.old)) }
    {
        ready.register()?;
        match self.core.poll_open(acquire, waker) {
            Ok(_) => Ok(()),
            Err(_) => {
                ready.unregister(1);
                Err(NoMemory)
            }
        }
    }

    /// Polls an acquire that waits.
    pub fn wait_on(&mut self, acquire: &mut Acquire, waker: u64)
        requires polled { (demand : ℕ) → acquire.old ≢ Acquire.New demand }
        requires waits { Waits self.old.core acquire.old }
        ensures is { WaitsOn self.old acquire.old waker self.new }
        ensures same { acquire.new ≡ acquire.old }
        ensures held { held_of self.new.core ≡ held_of self.old.core }
    {
        let _turn = self.core.poll_open(acquire, waker);
    }

    /// Ends an acquire, and pours what it was paid; hands the wakers on. Those that left the queue are registered no longer.
    pub fn end(&mut self, acquire: Acquire, plain: bool, ready: &mut Ready<u64>)
        requires belongs { Belongs self.old.core acquire }
        requires plain { cond plain 1 0 ≤ self.old.plain }
        requires thing { 1 ≤ self.old.things }
        requires quiet { self.old.core.wakes ≡ [] }
        requires room { wakers_in self.old.core.queue ≤ ready.old.registered }
        ensures ends { (left : ℕ) × Ends self.old acquire plain self.new ready.old.wakers ready.new.wakers left × (ready.new.registered + left ≡ ready.old.registered) }
        ensures held { held_of self.new.core ≡ held_of self.old.core }
    {
        let waited = self.waited(&acquire);
        self.core.cancel(acquire);
        self.discount(plain);
        hand_on(&mut self.core, ready);
        ready.unregister(waited);
    }

    // 1 for an acquire that waits.
    fn waited(&self, acquire: &Acquire) -> usize
        requires { Belongs self.now.core acquire.now }
        ensures { WaitedFor self.now.core acquire.now result }
    {
        match *acquire {
            Acquire::Queued { .. } if !self.core.is_closed() && !self.core.is_granted(acquire) => 1,
            _ => 0,
        }
    }

    /// Closes the semaphore, and hands the wakers on.
    pub fn close(&mut self, ready: &mut Ready<u64>)
        requires quiet { self.old.core.wakes ≡ [] }
        requires room { wakers_in self.old.core.queue ≤ ready.old.registered }
        ensures is { self.new ≡ record self.old { core = record (closed_core self.old.core) { wakes = [] } } }
        ensures held { held_of self.new.core ≡ held_of self.old.core }
        ensures moved { ready.new.wakers ≡ ready.old.wakers ++ close_wakes self.old.core }
        ensures counted { ready.new.registered + length (close_wakes self.old.core) ≡ ready.old.registered }
        ensures within { paid_waiting self.old.core.queue ≤ self.old.core.live }
    {
        let _live = self.core.live();
        self.core.close();
        hand_on(&mut self.core, ready);
    }
}

/// What an acquire asks for.
fn demand(acquire: &Acquire) -> usize
    ensures { result ≡ demand_of acquire.now }
{
    match *acquire {
        Acquire::New { demand }
        | Acquire::Queued { demand, .. }
        | Acquire::Done { demand }
        | Acquire::Refused { demand } => demand,
    }
}
