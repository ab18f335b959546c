use crate::pool::play::Reply::{
    Count, Done, Gone, Leased, Made, No, Pending, Ready, Two, Unknown, Yes,
};
use crate::pool::play::{Call, Reply, Room};
use mea_test_support::differs_at;
use std::process::Abort;

type Script = &'static [(Call, (Reply, Option<u64>))];

// The place of the first call of a pool of so many resources that tells something else.
fn differs(rt: &(impl Abort + AllocGlobal), size: usize, script: Script) -> Option<usize> {
    differs_at(Room::new(rt.alloc(), size).expect(rt, "memory"), script)
}

// Two resources: a lease that waits gets the one that is put back, one that waits when the pool drains is refused, and who
// waits for the end is woken by the last lease.
const TWO: Script = &[
    (Call::Ask, (Made, None)),
    (Call::Poll(0, 5), (Leased(0, 0), None)),
    (Call::Ask, (Made, None)),
    (Call::Poll(1, 6), (Leased(1, 1), None)),
    (Call::Ask, (Made, None)),
    (Call::Poll(2, 7), (Pending, None)),
    (Call::Use(0, 40), (Done, None)),
    (Call::Back(0), (Done, Some(7))),
    (Call::Poll(2, 8), (Leased(0, 40), None)),
    (Call::Idle, (Count(0), None)),
    (Call::Ask, (Made, None)),
    (Call::Poll(3, 9), (Pending, None)),
    (Call::Drain, (Done, Some(9))),
    (Call::IsDraining, (Yes, None)),
    (Call::IsDrained, (No, None)),
    (Call::Poll(3, 9), (Gone, None)),
    (Call::Wait, (Made, None)),
    (Call::PollWait(0, 3), (Pending, None)),
    (Call::Back(1), (Done, None)),
    (Call::Back(2), (Done, Some(3))),
    (Call::PollWait(0, 4), (Ready, None)),
    (Call::Idle, (Count(2), None)),
    (Call::Resources, (Two(1, 40), None)),
];

#[test]
fn two_resources(rt: HostRuntime) {
    assert_eq!(rt; differs(&rt, 2, TWO), None);
}

// One resource: a wait that was granted and then ended drains the pool, and a lease that was put back is gone.
const ONE: Script = &[
    (Call::Ask, (Made, None)),
    (Call::Poll(0, 1), (Leased(0, 0), None)),
    (Call::Ask, (Made, None)),
    (Call::Poll(1, 2), (Pending, None)),
    (Call::Back(0), (Done, Some(2))),
    (Call::Drain, (Done, None)),
    (Call::Wait, (Made, None)),
    (Call::PollWait(0, 3), (Pending, None)),
    (Call::End(1), (Done, Some(3))),
    (Call::PollWait(0, 4), (Ready, None)),
    (Call::Ask, (Made, None)),
    (Call::Poll(2, 5), (Gone, None)),
    (Call::Back(0), (Unknown, None)),
    (Call::IsDrained, (Yes, None)),
];

#[test]
fn one_resource(rt: HostRuntime) {
    assert_eq!(rt; differs(&rt, 1, ONE), None);
}

// Waits for the end are woken in the order of their first polls, and one that was ended is not.
const WAITS: Script = &[
    (Call::Wait, (Made, None)),
    (Call::Wait, (Made, None)),
    (Call::Wait, (Made, None)),
    (Call::PollWait(1, 10), (Pending, None)),
    (Call::PollWait(0, 11), (Pending, None)),
    (Call::PollWait(2, 12), (Pending, None)),
    (Call::PollWait(1, 13), (Pending, None)),
    (Call::EndWait(0), (Done, None)),
    (Call::Drain, (Done, Some(13))),
    (Call::IsDrained, (Yes, Some(12))),
    (Call::Drain, (Done, None)),
    (Call::PollWait(2, 14), (Ready, None)),
    (Call::EndWait(1), (Done, None)),
];

#[test]
fn waits_for_the_end(rt: HostRuntime) {
    assert_eq!(rt; differs(&rt, 0, WAITS), None);
}
