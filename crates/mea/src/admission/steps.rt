//! The steps of an admission's core that are made under its lock. Each tells how many wakers it made ready.
ghost use Rattle.std.specs.Prelude.{◌≡◌, ◌<◌, ◌-◌, length};
ghost use Rattle.mea_share_core.specs.Share.{released};
ghost use Rattle.mea_share_core.specs.Fair.{share_of, GivesBack, Belongs, Cancels};

use mea_share_core::{FairCore, ShareAcquire, SharedKey};
use std::hash::{BuildHasher, Hash};

// Gives a permit of a key back.
pub(super) fn release<K: Eq + Hash + Drop, W: Drop, S: BuildHasher>(
    core: &mut FairCore<K, W, S>,
    key: &SharedKey<K>,
) -> usize
    ensures allowed { 0 < (share_of K.eq core.old key.now).living → GivesBack K.eq core.old core.new key.now (released (share_of K.eq core.old key.now)) }
    ensures refused { (share_of K.eq core.old key.now).living ≡ 0 → core.new ≡ core.old }
    ensures made { result ≡ length core.new.wakes - length core.old.wakes }
{
    let before = core.wakes_ready();
    core.release_checked(key);
    core.wakes_ready().saturating_sub(before)
}

// Ends an acquire: what it had been admitted to goes on to the next.
pub(super) fn cancel<K: Eq + Hash + Drop, W: Drop, S: BuildHasher>(
    core: &mut FairCore<K, W, S>,
    acquire: ShareAcquire<K>,
) -> usize
    ensures allowed { Belongs K.eq core.old acquire.key acquire.stage → Cancels K.eq core.old acquire.key acquire.stage core.new }
    ensures refused { ¬ Belongs K.eq core.old acquire.key acquire.stage → core.new ≡ core.old }
    ensures made { result ≡ length core.new.wakes - length core.old.wakes }
{
    let before = core.wakes_ready();
    core.cancel_checked(acquire);
    core.wakes_ready().saturating_sub(before)
}
