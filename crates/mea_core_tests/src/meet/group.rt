use crate::play::Reply;
use crate::play::Reply::{Done, No, Nothing, Pending, Value};
use mea_meet_core::{GroupCore, GroupWait};
use mea_test_support::{Plays, differs_at};
use std::alloc::Global;

type Group = GroupCore<u64>;

// A call of a group.
#[derive(Clone, Copy)]
enum Call {
    // Polls a further wait, by the call that asks for one that may be polled.
    Await(u64),
    Poll(u64),
    Add,
    Leave,
    Wake,
}

// A group and a wait.
#[derive(Drop)]
struct Room {
    group: Group,
    wait: GroupWait,
}

impl Room {
    fn new(group: Group) -> Room {
        Room {
            group,
            wait: GroupWait::new(),
        }
    }
}

impl Plays for Room {
    type Call = Call;

    type Reply = Reply;

    fn reply(&mut self, call: Call) -> Option<Reply> {
        let group = &mut self.group;
        match call {
            Call::Await(waker) => Reply::polled(group.poll(&mut GroupWait::new(), waker)),
            Call::Poll(waker) => Reply::polled(group.poll_checked(&mut self.wait, waker)),
            Call::Add => Some(added(group)),
            Call::Leave => {
                group.leave_checked();
                Some(Value(u64::from(group.handles())))
            }
            Call::Wake => Some(Reply::found(group.next_wake())),
        }
    }
}

// How many handles there are after one more was asked for. No is a group that has ended, Nothing one that is full.
fn added(group: &mut Group) -> Reply {
    if !group.add_allowed() {
        return No;
    }
    match group.add() {
        Ok(()) => Value(u64::from(group.handles())),
        Err(_) => Nothing,
    }
}

// With memory at hand, no poll answers that there is none. A group ends with its last handle, and takes no more than its
// count holds.
const GROUP: &[(Call, Reply)] = &[
    (Call::Add, Value(2)),
    (Call::Leave, Value(1)),
    (Call::Poll(5), Pending),
    (Call::Await(6), Pending),
    (Call::Leave, Value(0)),
    (Call::Wake, Value(5)),
    (Call::Poll(7), Done),
    (Call::Add, No),
];

const FULL: &[(Call, Reply)] = &[(Call::Add, Nothing)];

fn differs(alloc: Global) -> Option<usize> {
    differs_at(Room::new(GroupCore::new(alloc)), GROUP)
}

// The same of a group whose count is full.
fn full_differs(alloc: Global) -> Option<usize> {
    differs_at(Room::new(GroupCore::at_count(alloc, u32::MAX)), FULL)
}

#[test]
fn group(rt: HostRuntime) {
    assert_eq!(rt; differs(rt.alloc()), None);
    assert_eq!(rt; full_differs(rt.alloc()), None);
}
