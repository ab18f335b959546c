use crate::play::Reply;
use crate::play::Reply::{Done, No, Nothing, Pending, Ready, Value, Yes};
use mea_lock_core::{CondWait, CondvarCore, MutexCore, WaitWhile};
use mea_test_support::{Plays, differs_at};
use std::alloc::Global;
use std::mem;

type Lock = MutexCore<u64, u64>;

type Condvar = CondvarCore<u64>;

// A mutex with the value 0, a condition variable and two waits.
#[derive(Drop)]
struct Room {
    lock: Lock,
    condvar: Condvar,
    first: CondWait,
    second: CondWait,
}

#[derive(Clone, Copy)]
enum Call {
    TryLock,
    Unlock,
    PollFirst(u64),
    PollSecond(u64),
    // By the call that asks for a wait that may be polled.
    PollAllowed(u64),
    EndFirst,
    NotifyOne,
    NotifyAll,
    NextWake,
    NextLockWake,
    // Takes the lock, writes the value, and gives the lock back.
    Write(u64),
}

impl Room {
    fn new(alloc: Global) -> Room {
        Room {
            lock: MutexCore::new(alloc, 0),
            condvar: CondvarCore::new(alloc),
            first: CondWait::new(),
            second: CondWait::new(),
        }
    }
}

impl Plays for Room {
    type Call = Call;

    type Reply = Reply;

    fn reply(&mut self, call: Call) -> Option<Reply> {
        let (lock, condvar) = (&mut self.lock, &mut self.condvar);
        match call {
            Call::PollFirst(waker) => polled(condvar, lock, &mut self.first, waker),
            Call::PollSecond(waker) => polled(condvar, lock, &mut self.second, waker),
            Call::PollAllowed(waker) => polled_if_allowed(condvar, lock, &mut self.first, waker),
            Call::EndFirst => Some(ended(condvar, lock, &mut self.first)),
            Call::TryLock | Call::Unlock | Call::NextLockWake | Call::Write(_) => {
                Some(lock_told(lock, call))
            }
            _ => Some(notified(condvar, call)),
        }
    }
}

fn polled(
    condvar: &mut Condvar,
    lock: &mut Lock,
    wait: &mut CondWait,
    waker: u64,
) -> Option<Reply> {
    Reply::turned(condvar.poll_wait_checked(lock, wait, waker))
}

fn polled_if_allowed(
    condvar: &mut Condvar,
    lock: &mut Lock,
    wait: &mut CondWait,
    waker: u64,
) -> Option<Reply> {
    if !condvar.poll_wait_allowed(lock, wait) {
        return Some(No);
    }
    Reply::turned(condvar.poll_wait(lock, wait, waker))
}

fn ended(condvar: &mut Condvar, lock: &mut Lock, wait: &mut CondWait) -> Reply {
    condvar.end_wait_checked(lock, mem::replace(wait, CondWait::new()));
    Done
}

fn lock_told(lock: &mut Lock, call: Call) -> Reply {
    match call {
        Call::TryLock => Reply::whether(lock.try_lock()),
        Call::NextLockWake => Reply::found(lock.next_wake()),
        Call::Write(value) => written(lock, value),
        _ => {
            lock.unlock_checked();
            Done
        }
    }
}

fn written(lock: &mut Lock, value: u64) -> Reply {
    if !lock.try_lock() {
        return No;
    }
    set(lock, value);
    lock.unlock_checked();
    Done
}

fn set(lock: &mut Lock, value: u64) {
    if lock.is_held() {
        *lock.value_mut() = value;
    }
}

fn notified(condvar: &mut Condvar, call: Call) -> Reply {
    match call {
        Call::NextWake => return Reply::found(condvar.next_wake()),
        Call::NotifyAll => condvar.notify_all(),
        _ => condvar.notify_one(),
    }
    Done
}

type Script = &'static [(Call, Reply)];

const SCRIPTS: &[Script] = &[
    // A wait that was notified alone and is ended in the lock stage passes that on.
    &[
        (Call::TryLock, Yes),
        (Call::PollFirst(10), Pending),
        (Call::TryLock, Yes),
        (Call::PollSecond(11), Pending),
        (Call::TryLock, Yes),
        (Call::NotifyOne, Done),
        (Call::NextWake, Value(10)),
        (Call::PollFirst(12), Pending),
        (Call::EndFirst, Done),
        (Call::NextWake, Value(11)),
        (Call::Unlock, Done),
        (Call::NextLockWake, Nothing),
        (Call::PollSecond(13), Ready(13)),
        (Call::NotifyOne, Done),
        (Call::NextWake, Nothing),
        (Call::TryLock, No),
    ],
    // A new wait that is ended gives the lock back.
    &[
        (Call::TryLock, Yes),
        (Call::EndFirst, Done),
        (Call::TryLock, Yes),
    ],
    // A wait that is ended while it waits leaves the others as they are.
    &[
        (Call::TryLock, Yes),
        (Call::PollFirst(10), Pending),
        (Call::TryLock, Yes),
        (Call::PollSecond(11), Pending),
        (Call::EndFirst, Done),
        (Call::NextWake, Nothing),
        (Call::NotifyOne, Done),
        (Call::NextWake, Value(11)),
    ],
    // A wait that was notified alone and is ended before its next poll passes that on.
    &[
        (Call::TryLock, Yes),
        (Call::PollFirst(10), Pending),
        (Call::TryLock, Yes),
        (Call::PollSecond(11), Pending),
        (Call::NotifyOne, Done),
        (Call::NextWake, Value(10)),
        (Call::EndFirst, Done),
        (Call::NextWake, Value(11)),
    ],
    // One that was notified with all has nothing to pass on, before its next poll and in the lock stage.
    &[
        (Call::TryLock, Yes),
        (Call::PollFirst(10), Pending),
        (Call::NotifyAll, Done),
        (Call::NextWake, Value(10)),
        (Call::TryLock, Yes),
        (Call::PollSecond(11), Pending),
        (Call::EndFirst, Done),
        (Call::NextWake, Nothing),
    ],
    &[
        (Call::TryLock, Yes),
        (Call::PollFirst(10), Pending),
        (Call::NotifyAll, Done),
        (Call::TryLock, Yes),
        (Call::PollFirst(12), Pending),
        (Call::PollSecond(11), Pending),
        (Call::NextLockWake, Value(12)),
        (Call::NextWake, Value(10)),
        (Call::EndFirst, Done),
        (Call::NextWake, Nothing),
        (Call::TryLock, Yes),
    ],
    // A wait finds memory in each stage: new, waiting, notified while the lock is held, and asking for the lock.
    &[
        (Call::TryLock, Yes),
        (Call::PollAllowed(10), Pending),
        (Call::PollAllowed(11), Pending),
        (Call::TryLock, Yes),
        (Call::NotifyOne, Done),
        (Call::PollAllowed(12), Pending),
        (Call::PollAllowed(13), Pending),
        (Call::Unlock, Done),
        (Call::PollAllowed(14), Ready(14)),
        (Call::PollAllowed(15), No),
        (Call::PollFirst(16), Pending),
        (Call::Unlock, Done),
        (Call::PollFirst(17), Ready(17)),
    ],
    &[
        (Call::TryLock, Yes),
        (Call::PollFirst(10), Pending),
        (Call::PollFirst(11), Pending),
        (Call::TryLock, Yes),
        (Call::NotifyOne, Done),
        (Call::PollFirst(12), Pending),
        (Call::PollFirst(13), Pending),
        (Call::Unlock, Done),
        (Call::PollFirst(14), Ready(14)),
    ],
];

// The place of the first call that tells something else.
fn differs(alloc: Global, script: Script) -> Option<usize> {
    differs_at(Room::new(alloc), script)
}

#[test]
fn waits_of_a_condition_variable(rt: HostRuntime) {
    for script in SCRIPTS {
        assert_eq!(rt; differs(rt.alloc(), script), None);
    }
}

// A poll of a wait with a condition, by the call that asks for nothing.
fn while_checked<F: FnMut(&mut u64) -> bool>(
    condvar: &mut Condvar,
    lock: &mut Lock,
    wait: &mut WaitWhile<F>,
    waker: u64,
) -> Option<Reply>
    requires { F.IsAlwaysCallable wait.old.condition }
    ensures { F.IsAlwaysCallable wait.new.condition }
{
    Reply::turned(condvar.poll_while_checked(lock, wait, waker))
}

// The same, by the call that asks for a wait that may be polled.
fn while_allowed<F: FnMut(&mut u64) -> bool>(
    condvar: &mut Condvar,
    lock: &mut Lock,
    wait: &mut WaitWhile<F>,
    waker: u64,
) -> Option<Reply>
    requires { F.IsAlwaysCallable wait.old.condition }
    ensures { F.IsAlwaysCallable wait.new.condition }
{
    if !condvar.poll_while_allowed(lock, wait) {
        return None;
    }
    Reply::turned(condvar.poll_while(lock, wait, waker))
}

// By the one or the other.
fn while_polled<F: FnMut(&mut u64) -> bool>(
    room: &mut Room,
    wait: &mut WaitWhile<F>,
    waker: u64,
    checked: bool,
) -> Option<Reply>
    requires { F.IsAlwaysCallable wait.old.condition }
    ensures { F.IsAlwaysCallable wait.new.condition }
{
    if checked {
        return while_checked(&mut room.condvar, &mut room.lock, wait, waker);
    }
    while_allowed(&mut room.condvar, &mut room.lock, wait, waker)
}

// The place of the first call that tells something else than stands beside it. None is a poll of a wait that goes on while
// the value is below 3, whose waker is its place.
fn while_differs_at(
    room: &mut Room,
    checked: bool,
    script: &[(Option<Call>, Reply)],
) -> Option<usize> {
    let mut wait = WaitWhile::new(|value: &mut u64| *value < 3);
    for (place, &(call, told)) in script.iter().enumerate() {
        let answer = match call {
            Some(call) => room.reply(call),
            None => while_polled(room, &mut wait, place as u64, checked),
        };
        if answer != Some(told) {
            return Some(place);
        }
    }
    room.condvar.end_while_checked(&mut room.lock, wait);
    None
}

// The same of a new room.
fn while_differs(alloc: Global, checked: bool, script: &[(Option<Call>, Reply)]) -> Option<usize> {
    let mut room = Room::new(alloc);
    while_differs_at(&mut room, checked, script)
}

// A wait goes on while the value is below 3, however often it is notified.
const WAITS_WHILE_BELOW: &[(Option<Call>, Reply)] = &[
    (Some(Call::TryLock), Yes),
    (None, Pending),
    (Some(Call::Write(2)), Done),
    (Some(Call::NotifyOne), Done),
    (Some(Call::NextWake), Value(1)),
    (None, Pending),
    (Some(Call::Write(3)), Done),
    (Some(Call::NotifyOne), Done),
    (Some(Call::NextWake), Value(5)),
    (None, Ready(9)),
    (Some(Call::TryLock), No),
];

// A wait with a condition finds memory in each stage: new, waiting, notified while the lock is held, asking for the lock,
// and holding it, first where the condition holds and then where it does not.
const EVERY_STAGE_OF_A_WHILE: &[(Option<Call>, Reply)] = &[
    (Some(Call::TryLock), Yes),
    (None, Pending),
    (Some(Call::NextWake), Nothing),
    (None, Pending),
    (Some(Call::NotifyOne), Done),
    (None, Pending),
    (Some(Call::TryLock), Yes),
    (None, Pending),
    (Some(Call::NotifyOne), Done),
    (None, Pending),
    (Some(Call::NextLockWake), Nothing),
    (None, Pending),
    (Some(Call::Unlock), Done),
    (None, Pending),
    (Some(Call::Write(3)), Done),
    (Some(Call::NotifyOne), Done),
    (None, Ready(16)),
];

#[test]
fn waits_with_a_condition(rt: HostRuntime) {
    assert_eq!(rt; while_differs(rt.alloc(), true, WAITS_WHILE_BELOW), None);
    assert_eq!(rt;
        while_differs(rt.alloc(), false, EVERY_STAGE_OF_A_WHILE),
        None
    );
    assert_eq!(rt;
        while_differs(rt.alloc(), true, EVERY_STAGE_OF_A_WHILE),
        None
    );
}
