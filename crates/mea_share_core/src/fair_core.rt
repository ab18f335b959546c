ghost use Rattle.std.specs.Prelude.{◌≡◌, ◌≢◌, ◌++◌, None, is_some, ◌+◌, ◌-◌, ◌<◌, ◌≤◌, ◌⊎◌, ◌↔◌, ◌∷◌, ◌^◌, ℕ, [], length, true, false, Ok, IsTrue, OnOk, OnErr, IfOk, IfErr, IfSome, IfNone};
ghost use Rattle.std.specs.FinMap as map;

use crate::groups::Groups;
use crate::share_acquire::{ShareAcquire, ShareStage};
use crate::share_fault::ShareFault;
use crate::share_group::ShareGroup;
use crate::shared_key::SharedKey;
use mea_base::{NoMemory, Outbox, Poll};
use std::alloc::Global;
use std::hash::{BuildHasher, BuildHasherDefault, FoldHasher, Hash};
use std::marker::Model;

/// Fair admission: permits that keys share. Who is next is the key that holds least for its weight, and among equal
/// keys the one that has waited longest.
///
/// Room for a waker and an admission is made when an acquire begins to wait, so that permits that come back take no
/// memory. An admission costs a logarithm of the keys that hold, wait or have a weight. It ports `mea`'s `FairShare` as
/// pure state; weights are this project's own.
pub struct FairCore<K: Eq + Hash, W, S: BuildHasher> {
    free: usize,
    waiting: usize,
    next: u64,
    groups: Groups<K, W, S>,
    outbox: Outbox<W>,
}

impl<K: Eq + Hash, W, S: BuildHasher> Model for FairCore<K, W, S> {
    ghost use Rattle.std.specs.Prelude.{◌≡◌, ◌+◌, ◌<◌, ◌≤◌, ◌⊎◌, ◌^◌};
    ghost use Rattle.mea_share_core.specs.Groups.{held_in, waiting_in, AreNumbered};
    ghost use Rattle.mea_share_core.specs.Fair.{Fair, fair_code};

    ghost Value = { Fair K W };

    ghost coded = { fair_code K.code W.code };

    ghost view = { λ f. record { free = f.free; next = f.next; shares = f.groups; wakes = f.outbox.wakers } };

    ghost invariant = { λ f. record {
      fits : f.free + held_in f.groups < 2 ^ 64;
      waiting : f.waiting ≡ waiting_in f.groups;
      room : f.waiting ≤ f.outbox.spare;
      settled : (f.free ≡ 0) ⊎ (f.waiting ≡ 0);
      numbered : AreNumbered K.eq f.next f.groups;
    } };
}

// Written out: a derived one is proved anew in each crate that hands a value of this type to a generic function.
impl<K: Eq + Hash + Drop, W: Drop, S: BuildHasher + Drop> Drop for FairCore<K, W, S> {
    fn drop(self) {
        let FairCore {
            free: _,
            waiting: _,
            next: _,
            groups: _,
            outbox: _,
        } = self;
    }
}

impl<K: Eq + Hash + Drop, W: Drop> FairCore<K, W, BuildHasherDefault<FoldHasher>> {
    ghost use Rattle.mea_share_core.specs.Share.{new_share};
    ghost use Rattle.mea_share_core.specs.Fair.{Fair, IsSettled};

    /// An admission with these permits, all of them free. It takes no memory.
    pub fn new(alloc: Global, permits: usize) -> Self
        requires { 0 < permits }
        ensures { result ≡ record { free = permits; next = 0; shares = []; wakes = [] } }
    {
        FairCore::with_hasher(alloc, permits, BuildHasherDefault::new())
    }
}

impl<K: Eq + Hash + Drop, W: Drop, S: BuildHasher> FairCore<K, W, S> {
    ghost use Rattle.mea_share_core.specs.Share.{new_share, IsWaiting, IsAdmitted, taken, queued, left, readied, given_up, released, weighing};
    ghost use Rattle.mea_share_core.specs.Groups.{held_in, Admits};
    ghost use Rattle.mea_share_core.specs.Fair.{share_of, waiters_of, IsSettled, Becomes, IsSame, PassesOn, GivesBack, Belongs, FaultOf, Polls, Cancels};

    /// `new` with a hasher of the caller's. It takes no memory.
    pub fn with_hasher(alloc: Global, permits: usize, hasher: S) -> Self
        requires { 0 < permits }
        ensures { result ≡ record { free = permits; next = 0; shares = []; wakes = [] } }
    {
        FairCore::at_sequence(alloc, permits, hasher, 0)
    }

    /// `with_hasher` whose first acquire that waits has this number. It takes no memory.
    pub fn at_sequence(alloc: Global, permits: usize, hasher: S, sequence: u64) -> Self
        requires { 0 < permits }
        ensures { result ≡ record { free = permits; next = sequence; shares = []; wakes = [] } }
    {
        FairCore {
            free: permits,
            waiting: 0,
            next: sequence,
            groups: Groups::new(alloc, hasher),
            outbox: Outbox::new(alloc),
        }
    }

    /// The permits that are free. It takes no memory.
    pub fn available_permits(&self) -> usize
        ensures is { result ≡ self.now.free }
        ensures settled { IsSettled self.now }
    {
        self.free
    }

    /// How many acquires wait and have no permit yet. It takes no memory.
    pub fn num_waiters(&self) -> usize
        ensures is { result ≡ waiters_of self.now }
        ensures settled { IsSettled self.now }
    {
        self.waiting
    }

    /// The weight of a key, which is 1 until it is set. It takes no memory.
    pub fn weight(&self, key: &SharedKey<K>) -> u64
        ensures { result ≡ (share_of K.eq self.now key.now).weight }
    {
        match self.groups.find(key) {
            Some(place) => self.groups.at(place).weight(),
            None => 1,
        }
    }

    /// Sets the weight of a key, which stays until it is set again. It admits nobody.
    pub fn set_weight(&mut self, key: &SharedKey<K>, weight: u64) -> Result<(), NoMemory>
        requires { 0 < weight }
        ensures ok { OnOk result (Becomes K.eq self.old self.new key.now (weighing (share_of K.eq self.old key.now) weight) self.old.free self.old.next) }
        ensures err { OnErr result (self.new ≡ self.old) }
        ensures settled { IsSettled self.new }
    {
        self.groups.weigh(key, weight)
    }

    /// Takes a permit for a key where one is free and nobody waits, and tells whether it did.
    pub fn try_acquire(&mut self, key: &SharedKey<K>) -> Result<bool, NoMemory>
        ensures ok { IfOk result (λ got. (got ≡ true → 0 < self.old.free) × (got ≡ false → self.old.free ≡ 0)) }
        ensures taken { result ≡ Ok true → Becomes K.eq self.old self.new key.now (taken (share_of K.eq self.old key.now)) (self.old.free - 1) self.old.next }
        ensures refused { result ≡ Ok false → self.new ≡ self.old }
        ensures none { self.old.free ≡ 0 → result ≡ Ok false }
        ensures err { OnErr result (self.new ≡ self.old) }
        ensures settled { IsSettled self.new }
    {
        if self.free == 0 {
            return Ok(false);
        }
        self.take(key)?;
        Ok(true)
    }

    /// How many wakers are ready. It takes no memory.
    pub fn wakes_ready(&self) -> usize
        ensures is { result ≡ length self.now.wakes }
        ensures bound { result < 2 ^ 63 }
    {
        self.outbox.len()
    }

    /// Takes the first waker that is ready. It takes no memory.
    pub fn next_wake(&mut self) -> Option<W>
        ensures some { IfSome result (λ waker. self.old ≡ record self.new { wakes = waker ∷ self.new.wakes }) }
        ensures none { IfNone result ((self.old.wakes ≡ []) × (self.new ≡ self.old)) }
    {
        self.outbox.pop()
    }

    // Takes a free permit for a key.
    fn take(&mut self, key: &SharedKey<K>) -> Result<(), NoMemory>
        requires { 0 < self.old.free }
        ensures ok { OnOk result (Becomes K.eq self.old self.new key.now (taken (share_of K.eq self.old key.now)) (self.old.free - 1) self.old.next) }
        ensures err { OnErr result (self.new ≡ self.old) }
        ensures settled { IsSettled self.new }
    {
        self.groups.take(key)?;
        self.free -= 1;
        Ok(())
    }

    // An acquire of a key begins to wait, under the next number.
    fn wait(&mut self, key: &SharedKey<K>, waker: W) -> Result<(), W>
        requires none { self.old.free ≡ 0 }
        requires few { self.old.next < 18446744073709551615 }
        ensures ok { OnOk result (Becomes K.eq self.old self.new key.now (queued (share_of K.eq self.old key.now) self.old.next waker) 0 (self.old.next + 1)) }
        ensures back { IfErr result (λ w. w ≡ waker) }
        ensures err { OnErr result (IsSame K.eq self.old self.new) }
        ensures settled { IsSettled self.new }
    {
        if self.waiting == usize::MAX {
            return Err(waker);
        }
        let waiting = self.waiting + 1;
        let Ok(()) = self.outbox.reserve(waiting) else {
            return Err(waker);
        };
        match self.groups.wait(key, self.next, waker) {
            Ok(()) => {
                self.waiting = waiting;
                self.next += 1;
                Ok(())
            }
            Err(waker) => Err(waker),
        }
    }

    // A number that waits has this waker now.
    fn replace(&mut self, key: &SharedKey<K>, number: u64, waker: W)
        requires { IsWaiting (share_of K.eq self.old key.now) number }
        ensures is { Becomes K.eq self.old self.new key.now (queued (share_of K.eq self.old key.now) number waker) self.old.free self.old.next }
        ensures settled { IsSettled self.new }
    {
        self.groups.replace(key, number, waker);
    }

    // What was admitted is a living permit.
    fn ready(&mut self, key: &SharedKey<K>, number: u64)
        requires { IsAdmitted (share_of K.eq self.old key.now) number }
        ensures is { Becomes K.eq self.old self.new key.now (readied (share_of K.eq self.old key.now) number) self.old.free self.old.next }
        ensures settled { IsSettled self.new }
    {
        self.groups.ready(key, number);
    }

    // A number waits no more.
    fn leave(&mut self, key: &SharedKey<K>, number: u64)
        requires { IsWaiting (share_of K.eq self.old key.now) number }
        ensures is { Becomes K.eq self.old self.new key.now (left (share_of K.eq self.old key.now) number) self.old.free self.old.next }
        ensures settled { IsSettled self.new }
    {
        self.groups.leave(key, number);
        self.waiting -= 1;
    }

    // What was admitted is given up; its permit is not free yet.
    fn give_up(&mut self, key: &SharedKey<K>, number: u64)
        requires { IsAdmitted (share_of K.eq self.old key.now) number }
        ensures is { Becomes K.eq self.old self.new key.now (given_up (share_of K.eq self.old key.now) number) self.old.free self.old.next }
        ensures fits { self.new.free + held_in self.new.shares + 1 < 2 ^ 64 }
    {
        self.groups.give_up(key, number);
    }

    // A permit of a key is gone; it is not free yet.
    fn drop_permit(&mut self, key: &SharedKey<K>)
        requires { 0 < (share_of K.eq self.old key.now).living }
        ensures is { Becomes K.eq self.old self.new key.now (released (share_of K.eq self.old key.now)) self.old.free self.old.next }
        ensures fits { self.new.free + held_in self.new.shares + 1 < 2 ^ 64 }
    {
        self.groups.release(key);
    }

    // A permit comes back: who is next is admitted, and with nobody waiting it is free.
    fn pass_on(&mut self)
        requires { self.old.free + held_in self.old.shares + 1 < 2 ^ 64 }
        ensures rests { waiters_of self.old ≡ 0 → self.new ≡ record self.old { free = self.old.free + 1 } }
        ensures passes { 0 < waiters_of self.old → (w : W) × Admits K.eq self.old.shares self.new.shares w × (self.new ≡ record self.old { shares = self.new.shares; wakes = self.old.wakes ++ w ∷ [] }) }
        ensures settled { IsSettled self.new }
    {
        if self.waiting == 0 {
            self.free += 1;
            return;
        }
        let waker = self.groups.admit();
        self.waiting -= 1;
        self.outbox.push(waker);
    }

    /// Gives a permit of a key back: who is next is admitted, and with nobody waiting the permit is free. It takes no
    /// memory.
    pub fn release(&mut self, key: &SharedKey<K>)
        requires { 0 < (share_of K.eq self.old key.now).living }
        ensures gives_back { GivesBack K.eq self.old self.new key.now (released (share_of K.eq self.old key.now)) }
        ensures settled { IsSettled self.new }
    {
        self.drop_permit(key);
        self.pass_on();
    }

    /// Polls an acquire: ready with a permit of its key, or pending with the waker kept until the next poll. It takes
    /// memory only where a new acquire takes a permit or begins to wait, and on an error the waker comes back.
    pub fn poll(
        &mut self,
        acquire: &mut ShareAcquire<K>,
        waker: W,
    ) -> Result<Poll<()>, ShareFault<W>>
        requires { Belongs K.eq self.old acquire.old.key acquire.old.stage }
        ensures key { acquire.new.key ≡ acquire.old.key }
        ensures polls { IfOk result (λ poll. Polls K.eq self.old acquire.old.key acquire.old.stage waker poll self.new acquire.new.stage) }
        ensures err { IfErr result (λ e. IsSame K.eq self.old self.new × (acquire.new ≡ acquire.old) × FaultOf self.old acquire.old.stage waker e) }
        ensures settled { IsSettled self.new }
    {
        match acquire.stage() {
            ShareStage::New => self.start(acquire, waker),
            ShareStage::Queued(number) => Ok(self.resume(acquire, number, waker)),
            ShareStage::Done => {
                self.rest();
                Ok(Poll::Ready(()))
            }
        }
    }

    // The first poll of an acquire: a permit where one is free, or else a number that waits.
    fn start(&mut self, acquire: &mut ShareAcquire<K>, waker: W) -> Result<Poll<()>, ShareFault<W>>
        ensures key { acquire.new.key ≡ acquire.old.key }
        ensures polls { IfOk result (λ poll. Polls K.eq self.old acquire.old.key ShareStage.New waker poll self.new acquire.new.stage) }
        ensures err { IfErr result (λ e. IsSame K.eq self.old self.new × (acquire.new ≡ acquire.old) × FaultOf self.old ShareStage.New waker e) }
        ensures settled { IsSettled self.new }
    {
        if self.free != 0 {
            let Ok(()) = self.take(acquire.key()) else {
                return Err(ShareFault::NoMemory(waker));
            };
            acquire.go(ShareStage::Done);
            return Ok(Poll::Ready(()));
        }
        if self.next == u64::MAX {
            return Err(ShareFault::Overflow(waker));
        }
        let number = self.next;
        match self.wait(acquire.key(), waker) {
            Ok(()) => {
                acquire.go(ShareStage::Queued(number));
                Ok(Poll::Pending)
            }
            Err(waker) => Err(ShareFault::NoMemory(waker)),
        }
    }

    // A further poll of an acquire that waits or was admitted.
    fn resume(&mut self, acquire: &mut ShareAcquire<K>, number: u64, waker: W) -> Poll<()>
        requires belongs { Belongs K.eq self.old acquire.old.key (ShareStage.Queued number) }
        requires stage { acquire.old.stage ≡ ShareStage.Queued number }
        ensures key { acquire.new.key ≡ acquire.old.key }
        ensures polls { Polls K.eq self.old acquire.old.key (ShareStage.Queued number) waker result self.new acquire.new.stage }
        ensures settled { IsSettled self.new }
    {
        if self.waits(acquire.key(), number) {
            self.replace(acquire.key(), number, waker);
            return Poll::Pending;
        }
        self.ready(acquire.key(), number);
        acquire.go(ShareStage::Done);
        Poll::Ready(())
    }

    /// Ends an acquire: one that waits leaves the queue, and what was admitted is given back as `release` does. It takes no
    /// memory.
    pub fn cancel(&mut self, acquire: ShareAcquire<K>)
        requires { Belongs K.eq self.old acquire.key acquire.stage }
        ensures cancels { Cancels K.eq self.old acquire.key acquire.stage self.new }
        ensures settled { IsSettled self.new }
    {
        match acquire.stage() {
            ShareStage::Queued(number) => self.abandon(acquire.key(), number),
            ShareStage::New => self.rest(),
            ShareStage::Done => self.rest(),
        }
    }

    // Ends an acquire that waits or was admitted.
    fn abandon(&mut self, key: &SharedKey<K>, number: u64)
        requires { Belongs K.eq self.old key.now (ShareStage.Queued number) }
        ensures cancels { Cancels K.eq self.old key.now (ShareStage.Queued number) self.new }
        ensures settled { IsSettled self.new }
    {
        if self.waits(key, number) {
            self.leave(key, number);
            return;
        }
        self.give_up(key, number);
        self.pass_on();
    }

    // The group of a key, if it has one.
    pub(crate) fn group(&self, key: &SharedKey<K>) -> Option<&ShareGroup<W>>
        ensures some { IfSome result (λ group. group.now ≡ share_of K.eq self.now key.now) }
        ensures none { IfNone result (share_of K.eq self.now key.now ≡ new_share) }
    {
        match self.groups.find(key) {
            Some(place) => Some(self.groups.at(place)),
            None => None,
        }
    }

    // Leaves all as it is: no permit is free, or nobody waits.
    pub(crate) fn rest(&self)
        ensures { IsSettled self.now }
    {
        // `num_waiters` tells it.
        let _ = self.num_waiters();
    }

    // Whether a number of a key waits. None that waits was admitted.
    fn waits(&self, key: &SharedKey<K>, number: u64) -> bool
        ensures is { result ≡ is_some (map.get (share_of K.eq self.now key.now).waiting number) }
        ensures apart { IsWaiting (share_of K.eq self.now key.now) number → map.get (share_of K.eq self.now key.now).admitted number ≡ None }
        ensures settled { IsSettled self.now }
    {
        match self.groups.find(key) {
            Some(place) => self.groups.at(place).waits(number),
            None => false,
        }
    }
}
