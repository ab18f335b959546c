use crate::play::Reply;
use crate::play::Reply::{Done, No, Pending, Ready, Value, Yes};
use mea_lock_core::{LockWait, MutexCore};
use mea_test_support::{Plays, differs_at};
use std::alloc::Global;
use std::mem;

type Lock = MutexCore<u64, u64>;

// A call of a mutex with one wait.
#[derive(Clone, Copy)]
enum Call {
    Try,
    Poll(u64),
    // By the call that asks for a wait that may be polled.
    PollAllowed(u64),
    Cancel,
    Get,
    Set(u64),
    Unlock,
    Idle,
}

// A mutex and a wait.
#[derive(Drop)]
struct Room {
    lock: Lock,
    wait: LockWait,
}

impl Plays for Room {
    type Call = Call;

    // Beside it the waker that is called then.
    type Reply = (Reply, Option<u64>);

    fn reply(&mut self, call: Call) -> Option<(Reply, Option<u64>)> {
        let told = lock_told(&mut self.lock, &mut self.wait, call)?;
        Some((told, self.lock.next_wake()))
    }
}

fn lock_told(lock: &mut Lock, wait: &mut LockWait, call: Call) -> Option<Reply> {
    match call {
        Call::Try => Some(Reply::whether(lock.try_lock())),
        Call::Poll(waker) => Reply::turned(lock.poll_checked(wait, waker)),
        Call::PollAllowed(waker) => polled(lock, wait, waker),
        Call::Cancel => {
            lock.cancel_checked(mem::replace(wait, LockWait::new()));
            Some(Done)
        }
        Call::Get => read(lock),
        Call::Set(value) => written(lock, value),
        Call::Unlock => {
            lock.unlock_checked();
            Some(Done)
        }
        Call::Idle => Some(Reply::whether(lock.is_idle())),
    }
}

fn polled(lock: &mut Lock, wait: &mut LockWait, waker: u64) -> Option<Reply> {
    if !lock.poll_allowed(wait) {
        return None;
    }
    Reply::turned(lock.poll(wait, waker))
}

fn written(lock: &mut Lock, value: u64) -> Option<Reply> {
    if !lock.is_held() {
        return None;
    }
    *lock.value_mut() = value;
    Some(Done)
}

fn read(lock: &Lock) -> Option<Reply> {
    if !lock.is_held() {
        return None;
    }
    Some(Value(*lock.value()))
}

type Script = &'static [(Call, (Reply, Option<u64>))];

const SCRIPTS: &[Script] = &[
    // A wait of a mutex is told when the guard ends, and finds the value that the guard left.
    &[
        (Call::Try, (Yes, None)),
        (Call::Poll(9), (Pending, None)),
        (Call::Set(6), (Done, None)),
        (Call::Unlock, (Done, Some(9))),
        (Call::Poll(10), (Ready(10), None)),
        (Call::Get, (Value(6), None)),
        (Call::Idle, (No, None)),
    ],
    // With memory at hand, no call answers that there is none, where a wait has to queue.
    &[
        (Call::Try, (Yes, None)),
        (Call::PollAllowed(9), (Pending, None)),
        (Call::Cancel, (Done, None)),
        (Call::Poll(9), (Pending, None)),
        (Call::Cancel, (Done, None)),
    ],
];

// The place of the first call that tells something else.
fn differs(alloc: Global, script: Script) -> Option<usize> {
    let lock = MutexCore::new(alloc, 5);
    let wait = LockWait::new();
    differs_at(Room { lock, wait }, script)
}

#[test]
fn calls_of_a_mutex(rt: HostRuntime) {
    for script in SCRIPTS {
        assert_eq!(rt; differs(rt.alloc(), script), None);
    }
}

// Who has the whole mutex writes its value, where nobody else has or waits for it.
fn set_whole(lock: &mut Lock, value: u64) {
    if lock.is_idle() {
        *lock.get_mut() = value;
    }
}

// What a mutex that is idle gives out.
fn given_out(alloc: Global) -> u64 {
    let mut lock: Lock = MutexCore::new(alloc, 5);
    set_whole(&mut lock, 6);
    lock.into_inner_checked()
}

#[test]
fn mutex_gives_out(rt: HostRuntime) {
    assert_eq!(rt; given_out(rt.alloc()), 6);
}
