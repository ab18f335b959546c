ghost use Rattle.std.specs.Prelude.{◌≡◌, ◌+◌, ◌<◌, ◌≤◌, [], length, true, cond, OnErr, IfOk};
ghost use Rattle.mea_meet_core.specs.Barrier.{is_open};

use mea_base::{NoMemory, Poll, Ready};
use mea_by_name::NamedWaker;
use mea_family::{Answer, Reply, Word};
use mea_meet_core::{BarrierCore, BarrierWait, BarrierWaitResult};

/// What a hall keeps of a barrier.
#[derive(Drop)]
pub struct BarrierEntry {
    /// Its wakers carry the names of their futures.
    pub core: BarrierCore<NamedWaker>,
    /// How many futures wait at it.
    pub waits: u128,
}

/// What a hall keeps of a future of a barrier.
#[derive(Drop)]
pub struct BarrierWaitEntry {
    pub barrier: u64,
    pub wait: BarrierWait,
}

// What a poll that is ready replies.
pub(crate) fn reply_of(told: BarrierWaitResult) -> Reply
    ensures { result ≡ cond told Answer.Leader Answer.Ready }
{
    if told.is_leader() {
        Reply(Word::Leader)
    } else {
        Reply(Word::Ready)
    }
}

impl BarrierEntry {
    ghost use Rattle.mea_meet.specs.BarrierEntries.{HandsOn, Turns};

    // Hands on the wakers that the core has ready, in their order.
    fn hand_on(&mut self, ready: &mut Ready<u64>)
        requires { length self.old.core.wakes ≤ ready.old.registered }
        ensures { HandsOn self.old self.new ready.old ready.new }
    {
        while let Some(next) = self.core.next_wake() {
            ready.wake(next.waker);
        }
    }

    /// Polls the future that is named `f`, and hands the wakers on. The waker is counted before it is registered, and no
    /// longer where it was not registered or took the place of an earlier one. On an error nothing has changed.
    pub fn poll(
        &mut self,
        f: u64,
        wait: &mut BarrierWait,
        waker: u64,
        ready: &mut Ready<u64>,
    ) -> Result<Poll<BarrierWaitResult>, NoMemory>
        requires opened { is_open self.old.core wait.old ≡ true }
        requires quiet { self.old.core.wakes ≡ [] }
        requires few { self.old.core.arrivals < 18446744073709551615 }
        requires room { length self.old.core.waiting.wakers ≤ ready.old.registered }
        ensures turns { IfOk result (λ turn. Turns self.old wait.old (record { name = f; waker = waker }) turn self.new wait.new ready.old ready.new) }
        ensures err { OnErr result ((self.new ≡ self.old) × (wait.new ≡ wait.old) × (ready.new ≡ ready.old)) }
    {
        ready.register()?;
        let before = self.core.registered();
        match self.core.poll(wait, NamedWaker { name: f, waker }) {
            Err(_) => {
                ready.unregister(1);
                Err(NoMemory)
            }
            Ok(Poll::Pending) => {
                ready.unregister(1 - (self.core.registered() - before));
                Ok(Poll::Pending)
            }
            Ok(Poll::Ready(result)) => {
                ready.unregister(1);
                self.hand_on(ready);
                Ok(Poll::Ready(result))
            }
        }
    }
}
