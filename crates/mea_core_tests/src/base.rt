use crate::play::Reply;
use crate::play::Reply::{Done, No, Nothing, Value, Yes};
use mea_base::{NoMemory, Outbox, Ready, WaitList};
use mea_test_support::{Plays, differs_at};
use std::alloc::Global;

type List = WaitList<u64>;

#[derive(Clone, Copy)]
enum Call {
    Reserve(usize),
    PushHead(u64),
    PushTail(u64),
    Add(usize, u64),
    Get(usize),
    Unlink(usize),
    UnlinkFirst,
    Remove(usize),
    First,
    Len,
    IsInUse(usize),
    IsLinked(usize),
}

// What a call tells of one number, or nothing where it may not be made.
fn answered_by(list: &mut List, number: usize, call: Call) -> Reply {
    if !list.is_in_use(number) {
        return Nothing;
    }
    match call {
        Call::Add(_, more) => {
            let value = list.get_mut(number);
            *value = value.wrapping_add(more);
            Done
        }
        Call::Unlink(_) => {
            list.unlink(number);
            Done
        }
        Call::Remove(_) if list.is_linked(number) => Nothing,
        Call::Remove(_) => Value(list.remove_unlinked(number)),
        Call::IsLinked(_) => Reply::whether(list.is_linked(number)),
        _ => Value(*list.get(number)),
    }
}

fn pushed(pushed: Result<usize, (u64, NoMemory)>) -> Option<Reply> {
    match pushed {
        Ok(number) => Some(Value(number as u64)),
        Err(_) => None,
    }
}

fn numbered(number: Option<usize>) -> Reply {
    match number {
        Some(number) => Value(number as u64),
        None => Nothing,
    }
}

// A new list.
#[derive(Drop)]
struct Room {
    list: List,
}

impl Plays for Room {
    type Call = Call;

    type Reply = Reply;

    fn reply(&mut self, call: Call) -> Option<Reply> {
        match call {
            Call::Reserve(n) => Some(Reply::whether(self.list.reserve(n).is_ok())),
            Call::PushHead(value) => pushed(self.list.push_head(value)),
            Call::PushTail(value) => pushed(self.list.push_tail(value)),
            Call::UnlinkFirst => Some(numbered(self.list.unlink_first())),
            Call::First => Some(numbered(self.list.first())),
            Call::Len => Some(Value(self.list.len() as u64)),
            Call::IsInUse(number) => Some(Reply::whether(self.list.is_in_use(number))),
            Call::Add(number, _)
            | Call::Get(number)
            | Call::Unlink(number)
            | Call::Remove(number)
            | Call::IsLinked(number) => Some(answered_by(&mut self.list, number, call)),
        }
    }
}

const SCRIPTS: &[&[(Call, Reply)]] = &[
    // With memory at hand, no call answers that there is none.
    &[
        (Call::Reserve(1), Yes),
        (Call::PushTail(20), Value(1)),
        (Call::PushHead(10), Value(2)),
        (Call::Len, Value(2)),
        (Call::First, Value(2)),
    ],
    // A value stays under its number until it is removed, and its number is the next to serve again.
    &[
        (Call::PushTail(10), Value(1)),
        (Call::PushTail(20), Value(2)),
        (Call::Add(2, 1), Done),
        (Call::Remove(2), Nothing),
        (Call::Unlink(2), Done),
        (Call::IsInUse(2), Yes),
        (Call::IsLinked(2), No),
        (Call::Get(2), Value(21)),
        (Call::Remove(2), Value(21)),
        (Call::IsInUse(2), No),
        (Call::PushHead(30), Value(2)),
        (Call::UnlinkFirst, Value(2)),
        (Call::UnlinkFirst, Value(1)),
        (Call::UnlinkFirst, Nothing),
        (Call::Len, Value(0)),
    ],
    // A value leaves from any place of the queue, and the others keep their order.
    &[
        (Call::PushTail(10), Value(1)),
        (Call::PushTail(20), Value(2)),
        (Call::PushTail(30), Value(3)),
        (Call::Unlink(2), Done),
        (Call::Unlink(2), Done),
        (Call::IsLinked(1), Yes),
        (Call::IsLinked(2), No),
        (Call::IsLinked(3), Yes),
        (Call::Len, Value(2)),
        (Call::Unlink(1), Done),
        (Call::First, Value(3)),
        (Call::Unlink(3), Done),
        (Call::First, Nothing),
        (Call::Len, Value(0)),
        (Call::PushHead(40), Value(4)),
        (Call::UnlinkFirst, Value(4)),
        (Call::UnlinkFirst, Nothing),
        (Call::Remove(2), Value(20)),
    ],
];

fn differs(alloc: Global, script: &[(Call, Reply)]) -> Option<usize> {
    let list = WaitList::new(alloc);
    differs_at(Room { list }, script)
}

#[test]
fn calls_of_a_list(rt: HostRuntime) {
    for script in SCRIPTS {
        assert_eq!(rt; differs(rt.alloc(), script), None);
    }
}

// Whether a waker finds room, and is put in.
fn pushed_with_room(outbox: &mut Outbox<u64>, waker: u64) -> bool {
    match outbox.reserve(1) {
        Ok(()) => {
            outbox.push(waker);
            true
        }
        Err(_) => false,
    }
}

// What comes out of an outbox into which two wakers were put, if there was room for both.
fn two_and_none(alloc: Global) -> Option<[Option<u64>; 3]> {
    let mut outbox: Outbox<u64> = Outbox::new(alloc);
    if pushed_with_room(&mut outbox, 10) && pushed_with_room(&mut outbox, 20) {
        Some([outbox.pop(), outbox.pop(), outbox.pop()])
    } else {
        None
    }
}

// Wakers leave in the order in which they came.
#[test]
fn wakers(rt: HostRuntime) {
    assert!(rt; two_and_none(rt.alloc()) == Some([Some(10), Some(20), None]));
}

// Whether there was a registered waker, which is woken.
fn woken(ready: &mut Ready<u64>, waker: u64) -> bool {
    let registered = ready.registered();
    if registered == 0 {
        return false;
    }
    ready.wake(waker);
    true
}

// Whether there was a registered waker, which is forgotten.
fn forgotten(ready: &mut Ready<u64>) -> bool {
    let registered = ready.registered();
    if registered == 0 {
        return false;
    }
    ready.unregister(1);
    true
}

// Of two registered wakers one is woken and one is forgotten.
#[test]
fn registered_wakers(rt: HostRuntime) {
    let mut ready: Ready<u64> = Ready::new(rt.alloc());
    assert!(rt; ready.register().is_ok() && ready.register().is_ok());
    assert!(rt; woken(&mut ready, 7) && ready.registered() == 1);
    assert!(rt; forgotten(&mut ready) && ready.registered() == 0);
    assert!(rt; ready.len() == 1 && ready.pop() == Some(7));
    assert!(rt; ready.pop().is_none());
}
