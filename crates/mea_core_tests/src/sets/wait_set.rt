use crate::play::Reply;
use crate::play::Reply::{No, Nothing, Value, Yes};
use mea_base::Outbox;
use mea_sets::{Place, WaitSet};
use mea_test_support::{Plays, differs_at};
use std::alloc::Global;

// A call of a set.
#[derive(Clone, Copy)]
enum Call {
    // Of one wait.
    Register(u64),
    // Of a further wait.
    RegisterNew(u64),
    RegisterWithRoom(u64),
    IsRegistered,
    HasGiven,
    Len,
    Drain,
    Drains,
    // Takes the first waker that was drained.
    Wake,
}

// A set, the outbox into which it is drained, and the number that a wait keeps.
#[derive(Drop)]
struct Room {
    set: WaitSet<u64>,
    outbox: Outbox<u64>,
    slot: Option<Place>,
}

impl Room {
    fn new(alloc: Global) -> Room {
        Room {
            set: WaitSet::new(alloc),
            outbox: Outbox::new(alloc),
            slot: None,
        }
    }
}

impl Plays for Room {
    type Call = Call;

    type Reply = Reply;

    fn reply(&mut self, call: Call) -> Option<Reply> {
        let (set, outbox) = (&mut self.set, &mut self.outbox);
        Some(match call {
            Call::Register(waker) => Reply::whether(set.register(&mut self.slot, waker).is_ok()),
            Call::RegisterNew(waker) => Reply::whether(set.register(&mut None, waker).is_ok()),
            Call::RegisterWithRoom(waker) => {
                Reply::whether(set.register_with_room(&mut None, waker, outbox).is_ok())
            }
            Call::IsRegistered => Reply::whether(set.is_registered(&self.slot)),
            Call::HasGiven => Reply::whether(set.has_given(&self.slot)),
            Call::Len => Value(set.len() as u64),
            Call::Drain => Reply::whether(drained(set, outbox)),
            Call::Drains => Reply::found(u64::try_from(set.drains()).ok()),
            Call::Wake => Reply::found(outbox.pop()),
        })
    }
}

// Whether a set is drained, if it may be and there is room.
fn drained(set: &mut WaitSet<u64>, outbox: &mut Outbox<u64>) -> bool {
    match outbox.reserve(set.len()) {
        Ok(()) if set.drains() < u128::MAX => {
            set.drain_into(outbox);
            true
        }
        _ => false,
    }
}

type Script = &'static [(Call, Reply)];

const SCRIPTS: &[Script] = &[
    // With memory at hand, no call answers that there is none.
    &[
        (Call::RegisterNew(30), Yes),
        (Call::RegisterWithRoom(31), Yes),
        (Call::Len, Value(2)),
    ],
    // A number that a wait kept past a drain replaces nobody's waker.
    &[
        (Call::Register(10), Yes),
        (Call::Register(11), Yes),
        (Call::IsRegistered, Yes),
        (Call::Drain, Yes),
        (Call::Len, Value(0)),
        (Call::RegisterNew(12), Yes),
        (Call::IsRegistered, No),
        (Call::HasGiven, Yes),
        (Call::Register(13), Yes),
        (Call::Drain, Yes),
        (Call::Drains, Value(2)),
        (Call::Wake, Value(11)),
        (Call::Wake, Value(12)),
        (Call::Wake, Value(13)),
        (Call::Wake, Nothing),
    ],
];

fn differs(alloc: Global, script: Script) -> Option<usize> {
    differs_at(Room::new(alloc), script)
}

#[test]
fn calls_of_a_set(rt: HostRuntime) {
    for script in SCRIPTS {
        assert_eq!(rt; differs(rt.alloc(), script), None);
    }
}
