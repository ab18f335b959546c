//! The steps of a map's core that are made under its lock, beside those of its calls.
ghost use Rattle.std.specs.Prelude.{◌≡◌, Ok, None, IsSome, IfOk, OnErr, OnSome};
ghost use Rattle.mea_once_core.specs.Keyed.{Discards, value_for};

use crate::computed::Computed;
use mea_base::NoMemory;
use mea_once_core::MapCore;
use std::hash::{BuildHasher, Hash};

// The key's entry leaves the map. What it had is handed out, so that it is dropped with no lock held; where no further
// share of it can be had, want of memory is told.
pub(super) fn discard<K: Eq + Hash + Drop, V: Drop, S: BuildHasher + Drop, W: Drop>(
    core: &mut MapCore<K, Computed<V>, S, W>,
    key: &K,
) -> Result<Option<Computed<V>>, NoMemory>
    ensures leaves { Discards K.eq core.old key.now core.new }
    ensures value { IfOk result (λ kept. kept ≡ value_for K.eq core.old key.now) }
    ensures no_memory { OnErr result (IsSome (value_for K.eq core.old key.now)) }
{
    let kept = core.get(key);
    core.discard(key);
    kept
}

// The key's value. An entry that has none leaves the map at once.
pub(super) fn find<K: Eq + Hash + Drop, V: Drop, S: BuildHasher + Drop, W: Drop>(
    core: &mut MapCore<K, Computed<V>, S, W>,
    key: &K,
) -> Result<Option<Computed<V>>, NoMemory>
    ensures value { IfOk result (λ kept. kept ≡ value_for K.eq core.old key.now) }
    ensures some { IfOk result (λ kept. OnSome kept (core.new ≡ core.old)) }
    ensures none { result ≡ Ok None → Discards K.eq core.old key.now core.new }
    ensures no_memory { OnErr result (IsSome (value_for K.eq core.old key.now)) }
    ensures err { OnErr result (core.new ≡ core.old) }
{
    let kept = core.get(key)?;
    if kept.is_none() {
        core.discard(key);
    }
    Ok(kept)
}
