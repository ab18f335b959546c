use crate::counters::{LastMessage, LastRound, LastSequence};
use crate::numbers::{AtItsEnd, holds};
use mea_broadcast_core::BroadcastCore;
use mea_chan_core::{BoundedCore, UnboundedCore};
use mea_meet_core::{BarrierCore, BarrierWait, GroupCore};
use mea_sem_core::SemCore;
use mea_sets::Countdown;
use mea_share_core::{FairCore, ShareAcquire, SharedKey};
use mea_test_support::Collides;
use std::alloc::Global;

fn last_round(alloc: Global) -> LastRound {
    LastRound {
        barrier: BarrierCore::at_round(alloc, 2, u64::MAX),
        first: BarrierWait::new(),
    }
}

// Its last message was sent, and not heard.
fn last_message(alloc: Global) -> Option<LastMessage> {
    let mut channel = BroadcastCore::at_tail(alloc, 2, u64::MAX - 1).ok()?;
    let cursor = channel.subscribe();
    channel.send(7).ok()?;
    Some(LastMessage { channel, cursor })
}

// Its permit was taken.
fn last_sequence(alloc: Global) -> Option<LastSequence> {
    let key = SharedKey::new(alloc, 1).ok()?;
    let acquire = ShareAcquire::new(SharedKey::new(alloc, 2).ok()?);
    let core = FairCore::at_sequence(alloc, 1, Collides, u64::MAX);
    let mut last = LastSequence { core, key, acquire };
    if last.takes() { Some(last) } else { None }
}

// Its senders are as many as it may have.
fn last_sender(alloc: Global) -> Option<BoundedCore<u64, u64>> {
    BoundedCore::at_senders(alloc, 1, usize::MAX).ok()
}

// Whether an object holds that memory was found for.
fn made_holds<T: AtItsEnd>(object: Option<T>) -> bool {
    match object {
        Some(object) => holds(object),
        None => false,
    }
}

// The permits of a semaphore, a count, the handles of a wait group, and the rounds of a barrier.
fn counts_hold(alloc: Global) -> [bool; 4] {
    [
        holds(SemCore::<u64>::new(alloc, usize::MAX)),
        holds(Countdown::<u64>::new(alloc, u32::MAX)),
        holds(GroupCore::<u64>::at_count(alloc, u32::MAX)),
        holds(last_round(alloc)),
    ]
}

// The senders of a bounded and of an unbounded channel, the messages that were ever sent to a broadcast, and the waits of an
// admission.
fn queues_hold(alloc: Global) -> [bool; 4] {
    [
        made_holds(last_sender(alloc)),
        holds(UnboundedCore::<u64, u64>::at_senders(alloc, usize::MAX)),
        made_holds(last_message(alloc)),
        made_holds(last_sequence(alloc)),
    ]
}

// No counter wraps: what would pass its end is refused, and changes nothing.
#[test]
fn ends_table(rt: HostRuntime) {
    assert!(rt; counts_hold(rt.alloc()) == [true; 4]);
    assert!(rt; queues_hold(rt.alloc()) == [true; 4]);
}
