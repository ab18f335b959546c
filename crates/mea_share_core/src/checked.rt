ghost use Rattle.std.specs.Prelude.{◌≡◌, ◌<◌, ◌⊎◌, ◌↔◌, IsTrue, IfOk, IfErr, OnErr};

use crate::fair_core::FairCore;
use crate::share_acquire::{ShareAcquire, ShareStage};
use crate::share_fault::ShareFault;
use crate::shared_key::SharedKey;
use mea_base::Poll;
use std::hash::{BuildHasher, Hash};

/// The tests of what a call asks of the core, and the calls in a form that asks for nothing.
impl<K: Eq + Hash + Drop, W: Drop, S: BuildHasher> FairCore<K, W, S> {
    ghost use Rattle.mea_share_core.specs.declared.share_acquire.ShareStage.TheVariants.{New};
    ghost use Rattle.mea_share_core.specs.Share.{IsWaiting, IsAdmitted, released};
    ghost use Rattle.mea_share_core.specs.Fair.{share_of, IsSettled, IsSame, GivesBack, Belongs, FaultOf, Polls, Cancels};

    /// Whether a permit of the key lives, which `release` asks for. It takes no memory.
    pub fn release_allowed(&self, key: &SharedKey<K>) -> bool
        ensures { IsTrue result ↔ (0 < (share_of K.eq self.now key.now).living) }
    {
        match self.group(key) {
            Some(group) => group.living() != 0,
            None => false,
        }
    }

    /// Whether the acquire is one of this core, which `poll` asks for. It takes no memory.
    pub fn poll_allowed(&self, acquire: &ShareAcquire<K>) -> bool
        ensures { IsTrue result ↔ Belongs K.eq self.now acquire.now.key acquire.now.stage }
    {
        match acquire.stage() {
            ShareStage::New => true,
            ShareStage::Queued(number) => self.is_in_use(acquire.key(), number),
            ShareStage::Done => true,
        }
    }

    /// Whether the acquire is one of this core, which `cancel` asks for. It takes no memory.
    pub fn cancel_allowed(&self, acquire: &ShareAcquire<K>) -> bool
        ensures { IsTrue result ↔ Belongs K.eq self.now acquire.now.key acquire.now.stage }
    {
        self.poll_allowed(acquire)
    }

    // Whether a number of a key waits or was admitted.
    fn is_in_use(&self, key: &SharedKey<K>, number: u64) -> bool
        ensures { IsTrue result ↔ (IsWaiting (share_of K.eq self.now key.now) number ⊎ IsAdmitted (share_of K.eq self.now key.now) number) }
    {
        match self.group(key) {
            Some(group) => group.has(number),
            None => false,
        }
    }

    /// `poll`, of an acquire that is renewed first where it is not one of this core.
    pub fn poll_checked(
        &mut self,
        acquire: &mut ShareAcquire<K>,
        waker: W,
    ) -> Result<Poll<()>, ShareFault<W>>
        ensures key { acquire.new.key ≡ acquire.old.key }
        ensures allowed { Belongs K.eq self.old acquire.old.key acquire.old.stage → IfOk result (λ poll. Polls K.eq self.old acquire.old.key acquire.old.stage waker poll self.new acquire.new.stage) }
        ensures renewed { ¬ Belongs K.eq self.old acquire.old.key acquire.old.stage → IfOk result (λ poll. Polls K.eq self.old acquire.old.key ShareStage.New waker poll self.new acquire.new.stage) }
        ensures err { IfErr result (λ e. IsSame K.eq self.old self.new × (acquire.new.stage ≡ ShareStage.New) × FaultOf self.old ShareStage.New waker e) }
        ensures goes_on { Belongs K.eq self.old acquire.old.key acquire.old.stage → OnErr result (acquire.old.stage ≡ ShareStage.New) }
        ensures settled { IsSettled self.new }
    {
        if !self.poll_allowed(acquire) {
            acquire.renew();
        }
        self.poll(acquire, waker)
    }

    /// `cancel`, which does nothing more where the acquire is not one of this core. It takes no memory.
    pub fn cancel_checked(&mut self, acquire: ShareAcquire<K>)
        ensures allowed { Belongs K.eq self.old acquire.key acquire.stage → Cancels K.eq self.old acquire.key acquire.stage self.new }
        ensures refused { ¬ Belongs K.eq self.old acquire.key acquire.stage → self.new ≡ self.old }
        ensures settled { IsSettled self.new }
    {
        if self.cancel_allowed(&acquire) {
            self.cancel(acquire);
        } else {
            self.rest();
        }
    }

    /// `release`, which does nothing more where no permit of the key lives. It takes no memory.
    pub fn release_checked(&mut self, key: &SharedKey<K>)
        ensures allowed { 0 < (share_of K.eq self.old key.now).living → GivesBack K.eq self.old self.new key.now (released (share_of K.eq self.old key.now)) }
        ensures refused { (share_of K.eq self.old key.now).living ≡ 0 → self.new ≡ self.old }
        ensures settled { IsSettled self.new }
    {
        if self.release_allowed(key) {
            self.release(key);
        } else {
            self.rest();
        }
    }
}
