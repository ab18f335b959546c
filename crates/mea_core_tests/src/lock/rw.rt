use crate::play::Reply;
use crate::play::Reply::{Done, No, Pending, Ready, Value, Yes};
use mea_lock_core::{RwCore, RwWait};
use mea_test_support::{Plays, differs_at};
use std::alloc::Global;
use std::mem;

type Lock = RwCore<u64, u64>;

// A call of a reader-writer lock with one wait.
#[derive(Clone, Copy)]
enum Call {
    TryRead,
    TryWrite,
    Poll(u64),
    // By the call that asks for a wait that may be polled.
    PollAllowed(u64),
    Cancel,
    Set(u64),
    Get,
    UnlockRead,
    Downgrade,
    Readers,
}

// A reader-writer lock and a wait.
#[derive(Drop)]
struct Room {
    lock: Lock,
    wait: RwWait,
}

impl Plays for Room {
    type Call = Call;

    // Beside it the waker that is called then.
    type Reply = (Reply, Option<u64>);

    fn reply(&mut self, call: Call) -> Option<(Reply, Option<u64>)> {
        let told = lock_told(&mut self.lock, &mut self.wait, call)?;
        Some((told, self.lock.next_wake()))
    }
}

fn lock_told(lock: &mut Lock, wait: &mut RwWait, call: Call) -> Option<Reply> {
    match call {
        Call::TryRead => Some(Reply::whether(lock.try_read())),
        Call::TryWrite => Some(Reply::whether(lock.try_write())),
        Call::Poll(waker) => Reply::turned(lock.poll_checked(wait, waker)),
        Call::PollAllowed(waker) => polled(lock, wait, waker),
        Call::Cancel => {
            lock.cancel_checked(mem::replace(wait, RwWait::write()));
            Some(Done)
        }
        Call::Set(value) => written(lock, value),
        Call::Get => read(lock),
        Call::UnlockRead => {
            lock.unlock_read_checked();
            Some(Done)
        }
        Call::Downgrade => {
            lock.downgrade_checked();
            Some(Done)
        }
        Call::Readers => Some(Value(lock.readers() as u64)),
    }
}

fn polled(lock: &mut Lock, wait: &mut RwWait, waker: u64) -> Option<Reply> {
    if !lock.poll_allowed(wait) {
        return None;
    }
    Reply::turned(lock.poll(wait, waker))
}

fn written(lock: &mut Lock, value: u64) -> Option<Reply> {
    if !lock.is_writing() {
        return None;
    }
    *lock.value_mut() = value;
    Some(Done)
}

fn read(lock: &Lock) -> Option<Reply> {
    let readers = lock.readers();
    if readers == 0 {
        return None;
    }
    Some(Value(*lock.value()))
}

type Script = &'static [(Call, (Reply, Option<u64>))];

const SCRIPTS_OF_A_WRITE: &[Script] = &[
    // A write that waits keeps later reads out, and a write that becomes a read lets them in again.
    &[
        (Call::TryRead, (Yes, None)),
        (Call::Poll(5), (Pending, None)),
        (Call::TryRead, (No, None)),
        (Call::UnlockRead, (Done, Some(5))),
        (Call::Poll(6), (Ready(6), None)),
        (Call::TryRead, (No, None)),
        (Call::Set(9), (Done, None)),
        (Call::Downgrade, (Done, None)),
        (Call::TryWrite, (No, None)),
        (Call::TryRead, (Yes, None)),
        (Call::Readers, (Value(2), None)),
        (Call::Get, (Value(9), None)),
    ],
    // With memory at hand, no call answers that there is none, where a write has to queue behind a read.
    &[
        (Call::TryRead, (Yes, None)),
        (Call::PollAllowed(5), (Pending, None)),
        (Call::Cancel, (Done, None)),
        (Call::Poll(5), (Pending, None)),
        (Call::Cancel, (Done, None)),
    ],
];

const SCRIPTS_OF_A_READ: &[Script] = &[
    // The same, where a read has to queue behind a write.
    &[
        (Call::TryWrite, (Yes, None)),
        (Call::PollAllowed(5), (Pending, None)),
        (Call::Cancel, (Done, None)),
    ],
    &[
        (Call::TryWrite, (Yes, None)),
        (Call::Poll(5), (Pending, None)),
        (Call::Cancel, (Done, None)),
    ],
];

// The place of the first call that tells something else, of a lock with this wait.
fn differs(alloc: Global, wait: RwWait, script: Script) -> Option<usize> {
    let lock = RwCore::new(alloc, 7, 2);
    differs_at(Room { lock, wait }, script)
}

#[test]
fn calls_of_a_reader_writer_lock(rt: HostRuntime) {
    for script in SCRIPTS_OF_A_WRITE {
        assert_eq!(rt; differs(rt.alloc(), RwWait::write(), script), None);
    }
    for script in SCRIPTS_OF_A_READ {
        assert_eq!(rt; differs(rt.alloc(), RwWait::read(), script), None);
    }
}

// Who has the whole lock writes its value, where nobody else has or waits for it.
fn set_whole(lock: &mut Lock, value: u64) {
    if lock.is_idle() {
        *lock.get_mut() = value;
    }
}

// What a lock that is idle gives out.
fn given_out(alloc: Global) -> u64 {
    let mut lock: Lock = RwCore::new(alloc, 7, 2);
    set_whole(&mut lock, 8);
    lock.into_inner_checked()
}

#[test]
fn rw_gives_out(rt: HostRuntime) {
    assert_eq!(rt; given_out(rt.alloc()), 8);
}
