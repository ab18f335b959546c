use crate::table_core::{ScriptedCall, TableCore, ValueCore};
use mea_base::{NoMemory, Poll};
use mea_by_name::NamedWaker;
use mea_once_core::MapCore;
use std::alloc::Global;
use std::hash::{BuildHasherDefault, FoldHasher};

/// The core that a hall keeps of a map.
pub type NamedMap = MapCore<u64, u64, BuildHasherDefault<FoldHasher>, NamedWaker>;

impl TableCore for NamedMap {
    ghost use Rattle.std.specs.Prelude.{false};

    ghost seen_as = { λ c. c };

    ghost is_once = { false };

    fn empty(alloc: Global) -> Self {
        NamedMap::with_hasher(alloc, BuildHasherDefault::new())
    }

    fn waiting(&self) -> usize {
        MapCore::waiting(self)
    }

    fn next_wake(&mut self) -> Option<NamedWaker> {
        MapCore::next_wake(self)
    }

    fn poll(
        &mut self,
        call: &mut ScriptedCall,
        waker: NamedWaker,
    ) -> Result<Poll<Result<u64, u64>>, NoMemory> {
        match MapCore::poll_compute(self, call, waker) {
            Ok(answer) => Ok(answer),
            Err(_) => Err(NoMemory),
        }
    }

    fn end(&mut self, call: ScriptedCall) {
        MapCore::end_compute(self, call);
    }

    fn discard(&mut self, key: u64) {
        MapCore::discard(self, &key);
    }
}

impl ValueCore for NamedMap {
    fn value(&self, key: u64) -> Option<u64> {
        MapCore::get(self, &key).unwrap()
    }
}
