ghost use Rattle.std.specs.Prelude.{ℕ, ◌≡◌, ◌≢◌, ◌+◌, ◌-◌, ◌<◌, ◌≤◌, ◌^◌, ◌&&◌, ◌==◌, not, [], nat_lt, nat_eq, cond, length, Some, true, false, IfOk, OnOk, OnErr};
ghost use Rattle.mea_family.specs.Causes.{borrowed_by};
ghost use Rattle.mea_share_model.specs.Actions.{zero_by};
ghost use Rattle.mea_share_core.specs.Share.{taken, released, weighing};
ghost use Rattle.mea_share_core.specs.Fair.{Fair, IsSettled, Belongs, share_of, waiters_of, is_queued, Becomes, IsSame};

use crate::future_entry::FutureEntry;
use mea_base::{NoMemory, Poll, Ready};
use mea_family::{Stop, borrowed_if, one_if, unknown_unless, zero_if};
use mea_share_core::{FairCore, SharedKey};
use std::alloc::Global;
use std::hash::{BuildHasherDefault, FoldHasher};
use std::marker::Model;

/// The core that a hall keeps of an admission.
pub type Core = FairCore<u64, u64, BuildHasherDefault<FoldHasher>>;

/// What a hall keeps of an admission.
#[derive(Drop)]
pub struct AdmissionEntry {
    core: Core,
    named: bool,
    // How many futures and permits it has, and how many of them are plain.
    things: u128,
    plain: u128,
}

impl Model for AdmissionEntry {
    ghost use Rattle.mea_share.specs.Kept.{KeptAdmission, kept_admission_code};

    ghost Value = { KeptAdmission };

    ghost coded = { kept_admission_code };

    ghost view = { λ e. record { fair = e.core; named = e.named; things = e.things; plain = e.plain } };
}

impl AdmissionEntry {
    ghost use Rattle.mea_share.specs.Entries.{new_admission, begun, finished, is_over, PollsEntry, EndsWait, Releases, Takes, Weighs};

    /// An admission that is named and has nothing, with this many permits, all of them free. It takes no memory.
    pub fn new(alloc: Global, permits: usize) -> Self
        requires { 0 < permits }
        ensures { result ≡ new_admission permits }
    {
        AdmissionEntry {
            core: FairCore::new(alloc, permits),
            named: true,
            things: 0,
            plain: 0,
        }
    }

    /// Its core. It takes no memory.
    pub fn core(&self) -> &Core
        ensures { result.now ≡ self.now.fair }
    {
        &self.core
    }

    /// Whether it is still named. It takes no memory.
    pub fn is_named(&self) -> bool
        ensures { result ≡ self.now.named }
    {
        self.named
    }

    /// Whether it has a plain future or permit. It takes no memory.
    pub fn has_plain(&self) -> bool
        ensures { result ≡ nat_lt 0 self.now.plain }
    {
        self.plain > 0
    }

    /// Why the end of its name is refused: it has none, or a plain future or permit borrows it. It takes no memory.
    pub fn cause_of_drop(&self) -> Option<Stop>
        ensures is { result ≡ borrowed_by self.now.named self.now.plain }
        ensures tells { result ≢ Some Stop.NoMemory }
    {
        unknown_unless(self.named).or(borrowed_if(self.has_plain()))
    }

    /// Why the setting of a weight is refused: it has no name, or the weight is 0. It takes no memory.
    pub fn cause_of_weight(&self, weight: u64) -> Option<Stop>
        ensures is { result ≡ zero_by self.now.named weight }
        ensures tells { result ≢ Some Stop.NoMemory }
    {
        unknown_unless(self.named).or(zero_if(weight == 0))
    }

    /// Ends its name. It takes no memory.
    pub fn unname(&mut self)
        ensures { self.new ≡ record self.old { named = false } }
    {
        self.named = false;
    }

    /// Whether it has neither its name nor a future or a permit. It takes no memory.
    pub fn is_over(&self) -> bool
        ensures { result ≡ is_over self.now }
    {
        !self.named && self.things == 0
    }

    /// One future or permit more. It takes no memory.
    pub fn begin(&mut self, plain: bool)
        requires things { self.old.things + 1 < 2 ^ 128 }
        requires plain { self.old.plain + 1 < 2 ^ 128 }
        ensures { self.new ≡ begun self.old plain }
    {
        self.things += 1;
        self.plain += one_if(plain);
    }

    /// One future or permit less. It takes no memory.
    pub fn finish(&mut self, plain: bool)
        requires things { 1 ≤ self.old.things }
        requires plain { cond plain 1 0 ≤ self.old.plain }
        ensures { self.new ≡ finished self.old plain }
    {
        self.things -= 1;
        self.plain -= one_if(plain);
    }

    /// Takes a free permit for a key, and tells whether there was one. On an error nothing has changed.
    pub fn take(&mut self, key: &SharedKey<u64>) -> Result<bool, NoMemory>
        ensures took { IfOk result (λ got. Takes self.old key.now got self.new) }
        ensures err { OnErr result (self.new ≡ self.old) }
    {
        self.core.try_acquire(key)
    }

    /// Sets the weight of a key. On an error nothing has changed.
    pub fn set_weight(&mut self, key: &SharedKey<u64>, weight: u64) -> Result<(), NoMemory>
        requires { 0 < weight }
        ensures ok { OnOk result (Weighs self.old key.now weight self.new) }
        ensures err { OnErr result (self.new ≡ self.old) }
    {
        self.core.set_weight(key, weight)
    }

    /// Whether a poll of a future lets it begin to wait. It takes no memory.
    pub fn would_queue(&self, future: &FutureEntry) -> bool
        ensures { result ≡ not (is_queued future.now.stage) && (self.now.fair.free == 0) }
    {
        !future.is_queued() && self.core.available_permits() == 0
    }

    /// Polls a future. The waker is counted before it is registered, and no longer where it was not registered or took the
    /// place of an earlier one. On an error nothing that is seen has changed.
    pub fn poll(
        &mut self,
        future: &mut FutureEntry,
        waker: u64,
        ready: &mut Ready<u64>,
    ) -> Result<Poll<()>, NoMemory>
        requires { Belongs nat_eq self.old.fair future.old.key future.old.stage }
        ensures polls { IfOk result (λ poll. PollsEntry self.old future.old waker poll self.new future.new ready.old ready.new) }
        ensures same { OnErr result (IsSame nat_eq self.old.fair self.new.fair) }
        ensures err { OnErr result ((self.new ≡ record self.old { fair = self.new.fair }) × (future.new ≡ future.old) × (ready.new ≡ ready.old)) }
    {
        ready.register()?;
        let again = future.is_queued();
        match self.core.poll(&mut future.acquire, waker) {
            Ok(Poll::Pending) => {
                if again {
                    ready.unregister(1);
                }
                Ok(Poll::Pending)
            }
            Ok(Poll::Ready(())) => {
                ready.unregister(1);
                Ok(Poll::Ready(()))
            }
            Err(_) => {
                ready.unregister(1);
                Err(NoMemory)
            }
        }
    }

    /// Ends a future: a permit that it was given goes to who is next. It takes no memory.
    pub fn end_future(&mut self, future: FutureEntry, ready: &mut Ready<u64>)
        requires belongs { Belongs nat_eq self.old.fair future.key future.stage }
        requires quiet { self.old.fair.wakes ≡ [] }
        requires room { waiters_of self.old.fair ≤ ready.old.registered }
        ensures { EndsWait self.old future self.new ready.old ready.new }
    {
        let before = self.core.num_waiters();
        self.core.cancel(future.acquire);
        match self.core.next_wake() {
            Some(waker) => ready.wake(waker),
            None => ready.unregister(before - self.core.num_waiters()),
        }
    }

    /// Ends a permit of a key, which goes to who is next. It takes no memory.
    pub fn end_permit(&mut self, key: &SharedKey<u64>, ready: &mut Ready<u64>)
        requires lives { 0 < (share_of nat_eq self.old.fair key.now).living }
        requires quiet { self.old.fair.wakes ≡ [] }
        requires room { waiters_of self.old.fair ≤ ready.old.registered }
        ensures { Releases self.old key.now self.new ready.old ready.new }
    {
        self.core.release(key);
        if let Some(waker) = self.core.next_wake() {
            ready.wake(waker);
        }
    }
}
