use crate::table_core::{ScriptedCall, TableCore};
use mea_base::{NoMemory, Poll};
use mea_by_name::NamedWaker;
use mea_once_core::FlightCore;
use std::alloc::Global;
use std::hash::{BuildHasherDefault, FoldHasher};

/// The core that a hall keeps of a group.
pub type NamedGroup = FlightCore<u64, u64, BuildHasherDefault<FoldHasher>, NamedWaker>;

impl TableCore for NamedGroup {
    ghost use Rattle.std.specs.Prelude.{true};

    ghost seen_as = { λ c. c };

    ghost is_once = { true };

    fn empty(alloc: Global) -> Self {
        NamedGroup::with_hasher(alloc, BuildHasherDefault::new())
    }

    fn waiting(&self) -> usize {
        FlightCore::waiting(self)
    }

    fn next_wake(&mut self) -> Option<NamedWaker> {
        FlightCore::next_wake(self)
    }

    fn poll(
        &mut self,
        call: &mut ScriptedCall,
        waker: NamedWaker,
    ) -> Result<Poll<Result<u64, u64>>, NoMemory> {
        match FlightCore::poll_work(self, call, waker) {
            Ok(answer) => Ok(answer),
            Err(_) => Err(NoMemory),
        }
    }

    fn end(&mut self, call: ScriptedCall) {
        FlightCore::end_work(self, call);
    }

    fn discard(&mut self, key: u64) {
        FlightCore::forget(self, &key);
    }
}
