ghost use Rattle.std.specs.Prelude.{◌≡◌, ◌≢◌, ◌+◌, ◌-◌, ◌*◌, ◌<◌, ◌≤◌, ◌^◌, ◌⊎◌, ◌↔◌, ℕ, [], ◌∷◌, length, min, true, false, IsTrue, IsOk, IsErr, OnOk, OnErr, IfOk, IfErr, IfSome, IfNone, MatchResult};
ghost use Rattle.std.specs.FinMap as map;

use crate::acquire::Acquire;
use crate::closing::cut_queue;
use crate::open_turn::OpenTurn;
use crate::pouring::{Poured, lack_at_most, pour, pour_counted};
use crate::wait_record::{WaitRecord, reserve_place};
use mea_base::{NoMemory, Outbox, Overflow, Steps, Turn, WaitList};
use std::alloc::Global;
use std::marker::{Brand, Model};
use std::sync::ledger::{Blank, Ledger};

/// A semaphore: permits, the acquires and debts that wait for them, and the wakers to call.
///
/// An acquire waits or is granted under a number of the core that has polled it, and keeps it until it is
/// polled ready or ended. Room for the waker of each waiter is reserved when it begins to wait, so that
/// permits that come in take no memory. It ports `mea`'s internal `Semaphore`, as pure state: its calls
/// make wakers ready and call none.
pub struct SemCore<W> {
    free: usize,
    live: usize,
    // What has been paid to the acquires that wait or were granted.
    paid: usize,
    closed: bool,
    waiters: WaitList<WaitRecord<W>>,
    outbox: Outbox<W>,
}

impl<W> Model for SemCore<W> {
    ghost use Rattle.std.specs.Prelude.{◌≡◌, ◌+◌, ◌^◌, ◌<◌, ◌≤◌, [], length};
    ghost use Rattle.mea_sem_core.specs.Core.{Core, core_code, CutsWhereClosed};
    ghost use Rattle.mea_sem_core.specs.Places.{queue_of, granted_of, cut_of, paid_in, IsQueue};

    ghost Value = { Core W };

    ghost coded = { core_code W.code };

    ghost view = { λ s. record {
      free = s.free;
      live = s.live;
      queue = queue_of s.waiters;
      granted = granted_of s.waiters;
      cut = cut_of s.waiters;
      closed = s.closed;
      wakes = s.outbox.wakers;
    } };

    ghost invariant = { λ s. record {
      kept : IsQueue s.waiters;
      room : length s.waiters.order ≤ s.outbox.spare;
      paid : s.paid ≡ paid_in s.waiters;
      total : s.free + s.paid ≤ s.live;
      fits : s.live < 2 ^ 64;
      idle : 0 < s.free → s.waiters.order ≡ [];
      closing : CutsWhereClosed s.closed (queue_of s.waiters) (cut_of s.waiters);
    } };
}

// Written out: a derived one is proved anew in each crate that hands a value of this type to a generic function.
impl<W: Drop> Drop for SemCore<W> {
    fn drop(self) {
        let SemCore {
            free: _,
            live: _,
            paid: _,
            closed: _,
            waiters: _,
            outbox: _,
        } = self;
    }
}

// What a first poll comes to.
#[derive(Drop)]
enum Start<W> {
    Taken(W),
    Waits(usize),
}

impl<W: Drop> SemCore<W> {
    ghost use Rattle.mea_base.specs.Queue.{lacks};
    ghost use Rattle.mea_sem_core.specs.Acquire.{demand_of};
    ghost use Rattle.mea_sem_core.specs.Core.{held_of, poured, closed_core, HasNoDebt, IsSound};
    ghost use Rattle.mea_sem_core.specs.Calls.{Belongs, IsGrantedAs, IsWaitingAs, IsGranted, IsApart, IsRefused, MayAdvance, Queues, Polls, PollsOpen, FindsNoMemory, HoldsAfter, HoldsOpen, after_refusal, Steady, Cancels, Loses, StandsAs, with_waker, given_back, forgetting, forgetting_exactly};

    /// A semaphore with these permits, all of them free. It takes no memory.
    pub fn new(alloc: Global, permits: usize) -> Self
        ensures is { result ≡ record { free = permits; live = permits; queue = []; granted = map.empty; cut = map.empty; closed = false; wakes = [] } }
        ensures held { held_of result ≡ 0 }
        ensures sound { IsSound result }
    {
        SemCore {
            free: permits,
            live: permits,
            paid: 0,
            closed: false,
            waiters: WaitList::new(alloc),
            outbox: Outbox::new(alloc),
        }
    }

    /// The free permits. It takes no memory.
    pub fn available_permits(&self) -> usize
        ensures is { result ≡ self.now.free }
        ensures sound { IsSound self.now }
    {
        self.free
    }

    /// The permits that are free, held, or paid to acquires. It takes no memory.
    pub fn live(&self) -> usize
        ensures is { result ≡ self.now.live }
        ensures sound { IsSound self.now }
    {
        self.live
    }

    /// The live permits that are neither free nor paid to an acquire: those that callers hold. It takes no
    /// memory.
    pub fn held(&self) -> usize
        ensures { result ≡ held_of self.now }
    {
        self.live - self.free - self.paid
    }

    /// Whether any acquire or debt waits. It takes no memory.
    pub fn is_waiting(&self) -> bool
        ensures is { IsTrue result ↔ (self.now.queue ≢ []) }
        ensures sound { IsSound self.now }
    {
        self.queue_len() != 0
    }

    /// How many acquires and debts wait. It takes no memory.
    pub fn queue_len(&self) -> usize
        ensures is { result ≡ length self.now.queue }
        ensures sound { IsSound self.now }
    {
        self.waiters.len()
    }

    /// Adds `n` permits, and pays those who wait from the head of the queue. It takes no memory.
    pub fn release(&mut self, n: usize) -> Result<(), Overflow>
        ensures overflow { IsErr result ↔ (usize.MAX < self.old.live + n) }
        ensures ok { OnOk result (self.new ≡ poured self.old n) }
        ensures err { OnErr result (self.new ≡ self.old) }
        ensures some { OnErr result (0 < n) }
        ensures held { held_of self.new ≡ held_of self.old }
        ensures no_debt { HasNoDebt self.old.queue → HasNoDebt self.new.queue }
        ensures sound { IsSound self.new }
    {
        if n > usize::MAX - self.live {
            return Err(Overflow);
        }
        self.pour(n);
        Ok(())
    }

    /// `release`, whose steps are counted: at most six for each acquire or debt that it pays whole, and two
    /// more. It takes no memory.
    pub fn release_counted<L: Ledger>(
        &mut self,
        n: usize,
        steps: &mut Steps<L>,
    ) -> Result<(), Overflow>
        ensures overflow { IsErr result ↔ (usize.MAX < self.old.live + n) }
        ensures ok { OnOk result (self.new ≡ poured self.old n) }
        ensures err { OnErr result ((self.new ≡ self.old) × (steps.new ≡ steps.old)) }
        ensures held { held_of self.new ≡ held_of self.old }
        ensures few { steps.new + 6 * length self.new.queue ≤ steps.old + 6 * length self.old.queue + 2 }
    {
        if n > usize::MAX - self.live {
            return Err(Overflow);
        }
        self.pour_counted(n, steps);
        Ok(())
    }

    /// Takes at most `n` free permits away for ever, and tells how many. It takes no memory.
    pub fn forget(&mut self, n: usize) -> usize
        ensures taken { result ≡ min n self.old.free }
        ensures is { self.new ≡ forgetting self.old n }
        ensures held { held_of self.new ≡ held_of self.old }
        ensures idle { 0 < self.old.free → self.old.queue ≡ [] }
        ensures within { result ≤ self.old.live }
        ensures sound { IsSound self.new }
    {
        let taken = n.min(self.free);
        self.free -= taken;
        self.live -= taken;
        taken
    }

    /// Takes `n` permits away for ever. Those that are not free become a debt at the head of the queue,
    /// which is paid before all others. It takes memory for that debt alone.
    pub fn forget_exact(&mut self, n: usize) -> Result<(), NoMemory>
        ensures ok { OnOk result (self.new ≡ forgetting_exactly self.old n) }
        ensures err { OnErr result (self.new ≡ self.old) }
        ensures enough { n ≤ self.old.free → IsOk result }
        ensures held { held_of self.new ≡ held_of self.old }
        ensures sound { IsSound self.new }
    {
        if n <= self.free {
            self.forget(n);
            return Ok(());
        }
        reserve_place(&mut self.waiters, &mut self.outbox)?;
        let debt = WaitRecord::Debt {
            lack: n - self.free,
        };
        match self.waiters.push_head(debt) {
            Ok(_) => {}
            Err(_) => unreachable!(),
        }
        self.live -= self.free;
        self.free = 0;
        Ok(())
    }

    /// Takes `n` permits of an open semaphore if they are free. While anyone waits none is free, so only a demand
    /// for none passes those who wait. It takes no memory.
    pub fn try_acquire(&mut self, n: usize) -> bool
        ensures taken { self.old.closed ≡ false → n ≤ self.old.free → (result ≡ true) × (self.new ≡ record self.old { free = self.old.free - n }) }
        ensures refused { self.old.free < n → (result ≡ false) × (self.new ≡ self.old) }
        ensures closed { self.old.closed ≡ true → (result ≡ false) × (self.new ≡ self.old) }
        ensures held { self.old.closed ≡ false → n ≤ self.old.free → held_of self.new ≡ held_of self.old + n }
        ensures sound { IsSound self.new }
    {
        if self.closed || self.free < n {
            return false;
        }
        self.free -= n;
        true
    }

    /// Closes the semaphore for good: it takes all acquires that wait out of the queue, makes their wakers
    /// ready in its order, and pours what they were paid. From then on it refuses each acquire that it had
    /// not granted before; permits come back to it, are released and forgotten as before. On a closed one
    /// nothing changes. It takes no memory, and passes over the queue once.
    pub fn close(&mut self)
        ensures closes { self.new ≡ closed_core self.old }
        ensures closed { self.new.closed ≡ true }
        ensures held { held_of self.new ≡ held_of self.old }
        ensures sound { IsSound self.new }
    {
        if self.closed {
            return;
        }
        let paid_back = cut_queue(&mut self.waiters, &mut self.outbox);
        self.closed = true;
        self.live -= paid_back;
        self.paid -= paid_back;
        self.pour(paid_back);
    }

    /// Whether the semaphore was closed. It takes no memory.
    pub fn is_closed(&self) -> bool
        ensures is { result ≡ self.now.closed }
        ensures sound { IsSound self.now }
    {
        self.closed
    }

    /// Polls an acquire of an open semaphore: ready with the waker handed back, or pending with the waker
    /// kept until the next poll. It takes memory only where a new acquire has to wait, and where there is
    /// none it hands the waker back.
    pub fn poll(&mut self, acquire: &mut Acquire, waker: W) -> Result<Turn<W>, (W, NoMemory)>
        requires belongs { Belongs self.old acquire.old }
        requires is_open { self.old.closed ≡ false }
        ensures polls { Polls self.old acquire.old waker result self.new acquire.new }
        ensures holds { IfOk result (λ turn. HoldsAfter self.old acquire.old turn self.new) }
        ensures steady { Steady self.old self.new }
        ensures no_memory { OnErr result (FindsNoMemory self.old (demand_of acquire.old) self.new) }
        ensures waker { IfErr result (λ e. e.0 ≡ waker) }
        ensures err { OnErr result ((self.new ≡ self.old) × (acquire.new ≡ acquire.old)) }
        ensures sound { IsSound self.old → IsSound self.new }
    {
        self.advance(acquire, waker)
    }

    /// Polls an acquire of a semaphore that is open or closed: as `poll`, and closed, with the waker handed
    /// back, where the semaphore is closed and had not granted the acquire before.
    pub fn poll_open(
        &mut self,
        acquire: &mut Acquire,
        waker: W,
    ) -> Result<OpenTurn<W>, (W, NoMemory)>
        requires { Belongs self.old acquire.old }
        ensures polls { PollsOpen self.old acquire.old waker result self.new acquire.new }
        ensures holds { IfOk result (λ turn. HoldsOpen self.old acquire.old turn self.new) }
        ensures steady { Steady self.old self.new }
        ensures no_memory { OnErr result (FindsNoMemory self.old (demand_of acquire.old) self.new) }
        ensures waker { IfErr result (λ e. e.0 ≡ waker) }
        ensures err { OnErr result ((self.new ≡ self.old) × (acquire.new ≡ acquire.old)) }
        ensures sound { IsSound self.new }
    {
        if self.is_refused(acquire) {
            self.refuse(acquire);
            return Ok(OpenTurn::Closed(waker));
        }
        match self.advance(acquire, waker) {
            Ok(turn) => Ok(OpenTurn::from(turn)),
            Err(e) => Err(e),
        }
    }

    /// Ends an acquire, and pours what it was paid, which is nothing for one that was cut. It takes no memory, and looks at those alone that the
    /// pour pays.
    pub fn cancel(&mut self, acquire: Acquire)
        requires { Belongs self.old acquire }
        ensures cancels { Cancels self.old acquire self.new }
        ensures steady { Steady self.old self.new }
        ensures held { held_of self.new ≡ held_of self.old }
        ensures sound { IsSound self.old → IsSound self.new }
    {
        let Acquire::Queued { number, .. } = acquire else {
            return;
        };
        let paid = self.waiters.get(number).paid();
        self.waiters.unlink(number);
        let _ = self.waiters.remove_unlinked(number);
        self.live -= paid;
        self.paid -= paid;
        self.pour(paid);
    }

    /// Ends an acquire. What it was paid is gone for ever. It takes no memory.
    pub fn lose_acquire(&mut self, acquire: Acquire)
        requires { Belongs self.old acquire }
        ensures loses { Loses self.old acquire self.new }
        ensures held { held_of self.new ≡ held_of self.old }
        ensures sound { IsSound self.old → IsSound self.new }
    {
        let Acquire::Queued { number, .. } = acquire else {
            return;
        };
        let paid = self.waiters.get(number).paid();
        self.waiters.unlink(number);
        let _ = self.waiters.remove_unlinked(number);
        self.live -= paid;
        self.paid -= paid;
    }

    /// Takes `n` held permits back, and pays those who wait from the head of the queue. It takes no
    /// memory.
    pub fn give_back(&mut self, n: usize)
        requires { n ≤ held_of self.old }
        ensures given { self.new ≡ given_back self.old n }
        ensures steady { Steady self.old self.new }
        ensures held { held_of self.new + n ≡ held_of self.old }
        ensures sound { IsSound self.new }
    {
        self.live -= n;
        self.pour(n);
    }

    /// Takes `n` held permits away for ever. It takes no memory.
    pub fn lose(&mut self, n: usize)
        requires { n ≤ held_of self.old }
        ensures lost { self.new ≡ record self.old { live = self.old.live - n } }
        ensures held { held_of self.new + n ≡ held_of self.old }
        ensures sound { IsSound self.new }
    {
        self.live -= n;
    }

    /// Adds `n` permits only where somebody waits for them. It takes no memory.
    pub fn release_if_waiting(&mut self, n: usize)
        requires { self.old.live + n ≤ usize.MAX }
        ensures waits { self.old.queue ≢ [] → self.new ≡ poured self.old n }
        ensures idle { self.old.queue ≡ [] → self.new ≡ self.old }
        ensures held { held_of self.new ≡ held_of self.old }
        ensures no_debt { HasNoDebt self.old.queue → HasNoDebt self.new.queue }
        ensures sound { IsSound self.new }
    {
        if self.is_waiting() {
            self.pour(n);
        }
    }

    /// Adds what all who wait lack together, so that each of them is granted. It takes no memory.
    pub fn wake_queue(&mut self)
        requires no_debt { HasNoDebt self.old.queue }
        requires few { self.old.live + lacks self.old.queue ≤ usize.MAX }
        ensures is { self.new ≡ poured self.old (lacks self.old.queue) }
        ensures empty { self.new.queue ≡ [] }
        ensures held { held_of self.new ≡ held_of self.old }
        ensures sound { IsSound self.new }
    {
        let Poured { left, to_debts: _ } = pour::<W, Brand>(
            &mut self.waiters,
            &mut self.outbox,
            usize::MAX,
            Blank::new(1),
        );
        self.live += usize::MAX - left;
        self.paid += usize::MAX - left;
    }

    /// Whether no debt waits and what all who wait lack fits in, which `wake_queue` asks for. It takes no
    /// memory, and a step for each who waits.
    pub fn wake_queue_allowed(&self) -> bool
        ensures { IsTrue result ↔ (HasNoDebt self.now.queue × (self.now.live + lacks self.now.queue ≤ usize.MAX)) }
    {
        lack_at_most(&self.waiters, usize::MAX - self.live)
    }

    /// Whether the acquire was granted, and was not polled since. It takes no memory.
    pub fn is_granted(&self, acquire: &Acquire) -> bool
        ensures granted { IsTrue result ↔ IsGranted self.now acquire.now }
        ensures apart { IsTrue result → IsApart self.now acquire.now }
        ensures stands { Belongs self.now acquire.now → StandsAs self.now acquire.now result }
    {
        match *acquire {
            Acquire::Queued { demand, number } => {
                self.waiters.is_in_use(number) && self.waiters.get(number).is_grant_of(demand)
            }
            _ => false,
        }
    }

    /// Whether the acquire is one of this core, which `poll` asks for. It takes no memory.
    pub fn poll_allowed(&self, acquire: &Acquire) -> bool
        ensures { IsTrue result ↔ Belongs self.now acquire.now }
    {
        match *acquire {
            Acquire::Queued { demand, number } => {
                self.waiters.is_in_use(number) && self.waiters.get(number).is_acquire_of(demand)
            }
            Acquire::Refused { .. } => self.closed,
            Acquire::New { .. } | Acquire::Done { .. } => true,
        }
    }

    /// How many wakers are to be called. It takes no memory.
    pub fn wakes_ready(&self) -> usize
        ensures is { result ≡ length self.now.wakes }
        ensures bound { result < 2 ^ 63 }
    {
        self.outbox.len()
    }

    /// Takes the first waker that is to be called. It takes no memory.
    pub fn next_wake(&mut self) -> Option<W>
        ensures some { IfSome result (λ waker. self.old ≡ record self.new { wakes = waker ∷ self.new.wakes }) }
        ensures none { IfNone result ((self.old.wakes ≡ []) × (self.new ≡ self.old)) }
        ensures sound { IsSound self.new }
    {
        self.outbox.pop()
    }

    // Pours `n` permits, which the live ones do not count yet.
    fn pour(&mut self, n: usize)
        requires { self.old.live + n ≤ usize.MAX }
        ensures poured { self.new ≡ poured self.old n }
        ensures held { held_of self.new ≡ held_of self.old }
        ensures no_debt { HasNoDebt self.old.queue → HasNoDebt self.new.queue }
        ensures sound { IsSound self.new }
    {
        self.pour_from::<Brand>(n, Blank::new(1));
    }

    // `pour`, which opens a ledger for its steps and drops it.
    fn pour_from<L: Ledger>(&mut self, n: usize, blank: Blank)
        requires fits { self.old.live + n ≤ usize.MAX }
        requires name { blank.name ≡ L.name }
        requires parts { blank.parts ≡ L.parts }
        requires some { 0 < L.parts }
        ensures poured { self.new ≡ poured self.old n }
        ensures held { held_of self.new ≡ held_of self.old }
        ensures no_debt { HasNoDebt self.old.queue → HasNoDebt self.new.queue }
        ensures sound { IsSound self.new }
    {
        let mut steps = Steps::<L>::new(blank);
        self.pour_counted(n, &mut steps);
    }

    // `pour`, whose steps are counted.
    fn pour_counted<L: Ledger>(&mut self, n: usize, steps: &mut Steps<L>)
        requires { self.old.live + n ≤ usize.MAX }
        ensures poured { self.new ≡ poured self.old n }
        ensures held { held_of self.new ≡ held_of self.old }
        ensures no_debt { HasNoDebt self.old.queue → HasNoDebt self.new.queue }
        ensures few { steps.new + 6 * length self.new.queue ≤ steps.old + 6 * length self.old.queue + 2 }
        ensures sound { IsSound self.new }
    {
        let Poured { left, to_debts } = pour_counted(&mut self.waiters, &mut self.outbox, n, steps);
        self.free += left;
        self.live += n - to_debts;
        self.paid += n - left - to_debts;
    }

    // Whether the semaphore is closed and had not granted the acquire before.
    fn is_refused(&self, acquire: &Acquire) -> bool
        requires { Belongs self.now acquire.now }
        ensures refused { IsTrue result → IsRefused self.now acquire.now }
        ensures advances { result ≡ false → MayAdvance self.now acquire.now }
        ensures sound { IsSound self.now }
    {
        match *acquire {
            Acquire::New { .. } => self.closed,
            Acquire::Queued { number, .. } => self.waiters.get(number).is_cut(),
            Acquire::Done { .. } => false,
            Acquire::Refused { .. } => true,
        }
    }

    // Refuses an acquire, which frees its number.
    fn refuse(&mut self, acquire: &mut Acquire)
        requires { IsRefused self.old acquire.old }
        ensures is { self.new ≡ after_refusal self.old acquire.old }
        ensures refused { acquire.new ≡ Acquire.Refused (demand_of acquire.old) }
        ensures held { held_of self.new ≡ held_of self.old }
        ensures sound { IsSound self.new }
    {
        match *acquire {
            Acquire::Queued { demand, number } => {
                let _ = self.waiters.remove_unlinked(number);
                *acquire = Acquire::Refused { demand };
            }
            Acquire::New { demand } | Acquire::Done { demand } | Acquire::Refused { demand } => {
                *acquire = Acquire::Refused { demand };
            }
        }
    }

    // Polls an acquire that no close keeps from its permits.
    fn advance(&mut self, acquire: &mut Acquire, waker: W) -> Result<Turn<W>, (W, NoMemory)>
        requires { MayAdvance self.old acquire.old }
        ensures polls { Polls self.old acquire.old waker result self.new acquire.new }
        ensures holds { IfOk result (λ turn. HoldsAfter self.old acquire.old turn self.new) }
        ensures steady { Steady self.old self.new }
        ensures no_memory { OnErr result (FindsNoMemory self.old (demand_of acquire.old) self.new) }
        ensures waker { IfErr result (λ e. e.0 ≡ waker) }
        ensures err { OnErr result ((self.new ≡ self.old) × (acquire.new ≡ acquire.old)) }
        ensures sound { IsSound self.old → IsSound self.new }
    {
        match *acquire {
            Acquire::New { demand } => match self.start(demand, waker)? {
                Start::Taken(waker) => {
                    *acquire = Acquire::Done { demand };
                    Ok(Turn::Ready(waker))
                }
                Start::Waits(number) => {
                    *acquire = Acquire::Queued { demand, number };
                    Ok(Turn::Pending)
                }
            },
            Acquire::Queued { demand, number } => {
                let turn = self.resume(demand, number, waker);
                if let Turn::Ready(_) = turn {
                    *acquire = Acquire::Done { demand };
                }
                Ok(turn)
            }
            Acquire::Done { .. } => Ok(Turn::Ready(waker)),
            Acquire::Refused { .. } => unreachable!(),
        }
    }

    // The first poll of an acquire: the demand where it is free, or else a number in the queue.
    fn start(&mut self, demand: usize, waker: W) -> Result<Start<W>, (W, NoMemory)>
        requires { self.old.closed ≡ false }
        ensures taken { demand ≤ self.old.free → (result ≡ Ok (Start.Taken waker)) × (self.new ≡ record self.old { free = self.old.free - demand }) }
        ensures waits { self.old.free < demand → MatchResult result (λ start. (number : ℕ) × (start ≡ Start.Waits number) × Queues self.old self.new demand waker number) (λ e. (e.0 ≡ waker) × (self.new ≡ self.old)) }
        ensures holds { demand ≤ self.old.free → held_of self.new ≡ held_of self.old + demand }
        ensures held { self.old.free < demand → held_of self.new ≡ held_of self.old }
        ensures steady { Steady self.old self.new }
        ensures sound { IsSound self.new }
    {
        if demand <= self.free {
            self.free -= demand;
            return Ok(Start::Taken(waker));
        }
        if reserve_place(&mut self.waiters, &mut self.outbox).is_err() {
            return Err((waker, NoMemory));
        }
        let waiter = WaitRecord::Acquire {
            demand,
            lack: demand - self.free,
            waker,
        };
        let number = match self.waiters.push_tail(waiter) {
            Ok(number) => number,
            Err(_) => unreachable!(),
        };
        self.paid += self.free;
        self.free = 0;
        Ok(Start::Waits(number))
    }

    // A further poll of an acquire that waits or was granted.
    fn resume(&mut self, demand: usize, number: usize, waker: W) -> Turn<W>
        requires { IsGrantedAs self.old demand number ⊎ IsWaitingAs self.old demand number }
        ensures granted { IsGrantedAs self.old demand number → (result ≡ Turn.Ready waker) × (self.new ≡ record self.old { granted = map.remove self.old.granted number }) }
        ensures waits { IsWaitingAs self.old demand number → (result ≡ Turn.Pending) × (self.new ≡ record self.old { queue = with_waker self.old.queue number waker }) }
        ensures holds { IsGrantedAs self.old demand number → held_of self.new ≡ held_of self.old + demand }
        ensures held { IsWaitingAs self.old demand number → held_of self.new ≡ held_of self.old }
        ensures steady { Steady self.old self.new }
        ensures sound { IsSound self.new }
    {
        if self.waiters.get(number).is_grant_of(demand) {
            let _ = self.waiters.remove_unlinked(number);
            self.paid -= demand;
            return Turn::Ready(waker);
        }
        self.waiters.get_mut(number).set_waker(waker);
        Turn::Pending
    }
}
