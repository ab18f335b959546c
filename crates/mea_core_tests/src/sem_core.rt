ghost use Rattle.std.specs.Prelude.{◌+◌, ◌<◌, ◌≡◌, ◌≤◌};

use crate::play::Reply;
use crate::play::Reply::{Back, Done, No, Nothing, Pending, Ready, Value, Yes};
use mea_base::{Steps, WaitList};
use mea_sem_core::{Acquire, OpenTurn, SemCore};
use mea_test_support::{Plays, differs_at};
use std::alloc::Global;
use std::marker::Brand;
use std::mem;
use std::sync::ledger::{Blank, Ledger};

type Core = SemCore<u64>;

// A call of a core. Acquires are told apart by the order in which they are made.
#[derive(Clone, Copy)]
enum Call {
    Ask(usize),
    // Of an acquire of this core, which is open.
    Poll(usize, u64),
    PollOpen(usize, u64),
    IsOwn(usize),
    IsGranted(usize),
    Renew(usize),
    Cancel(usize),
    Try(usize),
    Release(usize),
    ReleaseIfWaiting(usize),
    // Calls all who wait, if that may be.
    WakeQueue,
    Forget(usize),
    GiveBack(usize),
    Lose(usize),
    Close,
    IsClosed,
    Free,
    Live,
    Held,
    Queued,
    Wake,
    // The calls after it are the other core's.
    Other,
}

// Two cores, and the acquires that were made.
#[derive(Drop)]
struct Room {
    core: Core,
    other: Core,
    acquires: Vec<Acquire>,
}

impl Room {
    fn new(alloc: Global, permits: usize) -> Room {
        Room {
            core: SemCore::new(alloc, permits),
            other: SemCore::new(alloc, 0),
            acquires: Vec::new(alloc),
        }
    }
}

impl Plays for Room {
    type Call = Call;

    type Reply = Reply;

    fn reply(&mut self, call: Call) -> Option<Reply> {
        match call {
            Call::Ask(demand) => asked(&mut self.acquires, demand),
            Call::Poll(place, _)
            | Call::PollOpen(place, _)
            | Call::IsOwn(place)
            | Call::IsGranted(place)
            | Call::Renew(place)
            | Call::Cancel(place) => {
                acquire_told(&mut self.core, self.acquires.get_mut(place)?, call)
            }
            Call::Other => {
                mem::swap(&mut self.core, &mut self.other);
                Some(Done)
            }
            _ => Some(core_told(&mut self.core, call)),
        }
    }
}

fn asked(acquires: &mut Vec<Acquire>, demand: usize) -> Option<Reply> {
    match acquires.push(Acquire::new(demand)) {
        Ok(()) => Some(Done),
        Err(_) => None,
    }
}

fn acquire_told(core: &mut Core, acquire: &mut Acquire, call: Call) -> Option<Reply> {
    match call {
        Call::Poll(_, waker) => polled(core, acquire, waker),
        Call::PollOpen(_, waker) => polled_open(core, acquire, waker),
        Call::IsOwn(_) => Some(Reply::whether(core.poll_allowed(acquire))),
        Call::IsGranted(_) => Some(Reply::whether(core.is_granted(acquire))),
        Call::Renew(_) => {
            acquire.renew();
            Some(Done)
        }
        _ => {
            core.cancel_checked(mem::replace(acquire, Acquire::new(0)));
            Some(Done)
        }
    }
}

fn polled(core: &mut Core, acquire: &mut Acquire, waker: u64) -> Option<Reply> {
    if core.is_closed() {
        return None;
    }
    if !core.poll_allowed(acquire) {
        return None;
    }
    Reply::turned(core.poll(acquire, waker))
}

fn polled_open(core: &mut Core, acquire: &mut Acquire, waker: u64) -> Option<Reply> {
    match core.poll_open_checked(acquire, waker) {
        Ok(OpenTurn::Ready(waker)) => Some(Ready(waker)),
        Ok(OpenTurn::Pending) => Some(Pending),
        Ok(OpenTurn::Closed(waker)) => Some(Back(waker)),
        Err(_) => None,
    }
}

// What a call tells that changes permits, or else looks at them.
fn core_told(core: &mut Core, call: Call) -> Reply {
    match call {
        Call::Try(n) => return Reply::whether(core.try_acquire(n)),
        Call::Release(n) => return Reply::whether(core.release(n).is_ok()),
        Call::Forget(n) => return Reply::whether(core.forget_exact(n).is_ok()),
        Call::ReleaseIfWaiting(n) => return Reply::whether(released_if_waiting(core, n)),
        Call::WakeQueue => return Reply::whether(queue_woken(core)),
        Call::GiveBack(n) => core.give_back_checked(n),
        Call::Lose(n) => core.lose_checked(n),
        Call::Close => core.close(),
        Call::Wake => return Reply::found(core.next_wake()),
        _ => return seen(core, call),
    }
    Done
}

fn released_if_waiting(core: &mut Core, n: usize) -> bool {
    if n > usize::MAX - core.live() {
        return false;
    }
    core.release_if_waiting(n);
    true
}

fn queue_woken(core: &mut Core) -> bool {
    if !core.wake_queue_allowed() {
        return false;
    }
    core.wake_queue();
    true
}

fn seen(core: &Core, call: Call) -> Reply {
    let count = match call {
        Call::Free => core.available_permits(),
        Call::Live => core.live(),
        Call::Held => core.held(),
        Call::Queued => core.queue_len(),
        _ => return Reply::whether(core.is_closed()),
    };
    Value(count as u64)
}

// Scripts, each with the permits of its core.
const SCRIPTS: &[(usize, &[(Call, Reply)])] = &[
    // With memory at hand, no call answers that there is none.
    (
        1,
        &[
            (Call::Forget(3), Yes),
            (Call::Ask(1), Done),
            (Call::Poll(0, 10), Pending),
            (Call::Ask(1), Done),
            (Call::PollOpen(1, 11), Pending),
            (Call::Queued, Value(3)),
        ],
    ),
    // A permit that is given back pays who waits, and one that is lost is gone.
    (
        3,
        &[
            (Call::Ask(2), Done),
            (Call::Try(3), Yes),
            (Call::Poll(0, 10), Pending),
            (Call::Lose(1), Done),
            (Call::GiveBack(2), Done),
            (Call::IsGranted(0), Yes),
            (Call::Wake, Value(10)),
            (Call::GiveBack(1), Done),
            (Call::Live, Value(2)),
            (Call::Held, Value(0)),
        ],
    ),
    // Permits that are released for those who wait alone.
    (
        0,
        &[
            (Call::ReleaseIfWaiting(2), Yes),
            (Call::Live, Value(0)),
            (Call::Ask(5), Done),
            (Call::Poll(0, 10), Pending),
            (Call::ReleaseIfWaiting(2), Yes),
            (Call::Live, Value(2)),
        ],
    ),
    // An acquire is no acquire of another core until it is renewed.
    (
        0,
        &[
            (Call::Ask(1), Done),
            (Call::Poll(0, 10), Pending),
            (Call::IsOwn(0), Yes),
            (Call::Other, Done),
            (Call::IsOwn(0), No),
            (Call::Renew(0), Done),
            (Call::IsOwn(0), Yes),
            (Call::Poll(0, 11), Pending),
            (Call::Queued, Value(1)),
        ],
    ),
    // A close wakes those who wait in their order and refuses them and all that come later. What they were paid
    // goes to a debt first; permits that come back and are released are free, and a second close does nothing.
    (
        5,
        &[
            (Call::Ask(4), Done),
            (Call::Ask(1), Done),
            (Call::Try(2), Yes),
            (Call::PollOpen(0, 10), Pending),
            (Call::PollOpen(1, 11), Pending),
            (Call::Forget(2), Yes),
            (Call::Close, Done),
            (Call::IsClosed, Yes),
            (Call::Free, Value(1)),
            (Call::Live, Value(3)),
            (Call::Queued, Value(0)),
            (Call::Wake, Value(10)),
            (Call::Wake, Value(11)),
            (Call::Wake, Nothing),
            (Call::Try(1), No),
            (Call::PollOpen(0, 12), Back(12)),
            (Call::PollOpen(0, 13), Back(13)),
            (Call::Cancel(1), Done),
            (Call::Close, Done),
            (Call::GiveBack(2), Done),
            (Call::Release(1), Yes),
            (Call::Free, Value(4)),
            (Call::Live, Value(4)),
            (Call::Wake, Nothing),
        ],
    ),
    // What was granted before a close is ready after it, and a demand of nothing that comes later is refused.
    (
        0,
        &[
            (Call::Ask(1), Done),
            (Call::Ask(0), Done),
            (Call::PollOpen(0, 10), Pending),
            (Call::PollOpen(0, 11), Pending),
            (Call::Release(1), Yes),
            (Call::Close, Done),
            (Call::Wake, Value(11)),
            (Call::IsGranted(0), Yes),
            (Call::PollOpen(0, 12), Ready(12)),
            (Call::PollOpen(1, 13), Back(13)),
            (Call::Held, Value(1)),
            (Call::GiveBack(1), Done),
            (Call::Free, Value(1)),
        ],
    ),
    // An acquire that one core has cut or refused is a new one for another.
    (
        0,
        &[
            (Call::Ask(1), Done),
            (Call::Ask(2), Done),
            (Call::PollOpen(0, 10), Pending),
            (Call::Close, Done),
            (Call::PollOpen(1, 11), Back(11)),
            (Call::Other, Done),
            (Call::IsOwn(0), No),
            (Call::IsOwn(1), No),
            (Call::PollOpen(0, 12), Pending),
            (Call::PollOpen(1, 13), Pending),
            (Call::Queued, Value(2)),
        ],
    ),
    // A call of all who wait adds what the first lacks, unless the permits would pass the greatest number.
    (
        2,
        &[
            (Call::Ask(5), Done),
            (Call::Poll(0, 10), Pending),
            (Call::WakeQueue, Yes),
            (Call::Live, Value(5)),
            (Call::Wake, Value(10)),
        ],
    ),
    (
        usize::MAX - 5,
        &[
            (Call::Try(usize::MAX - 5), Yes),
            (Call::Ask(5), Done),
            (Call::Poll(0, 10), Pending),
            (Call::WakeQueue, Yes),
            (Call::Live, Value(u64::MAX)),
        ],
    ),
    (
        usize::MAX - 4,
        &[
            (Call::Try(usize::MAX - 4), Yes),
            (Call::Ask(5), Done),
            (Call::Poll(0, 10), Pending),
            (Call::WakeQueue, No),
        ],
    ),
];

// The place of the first call that tells something else, of a core of so many permits.
fn differs(alloc: Global, permits: usize, script: &[(Call, Reply)]) -> Option<usize> {
    differs_at(Room::new(alloc, permits), script)
}

#[test]
fn calls_of_a_core(rt: HostRuntime) {
    for (permits, script) in SCRIPTS {
        assert_eq!(rt; differs(rt.alloc(), *permits, script), None);
    }
}

// Appends a thousand values, and tells the number of the middle one.
fn filled(list: &mut WaitList<u64>) -> usize {
    let mut middle = 0;
    for value in 0..1000u64 {
        match list.push_tail(value) {
            Ok(number) if value == 499 => middle = number,
            _ => {}
        }
    }
    middle
}

// Takes one of a thousand values out, in at most four steps.
fn unlinks<L: Ledger>(list: &mut WaitList<u64>, number: usize, steps: &mut Steps<L>) -> bool
    ensures { steps.new ≤ steps.old + 4 }
{
    if !list.is_in_use(number) {
        return false;
    }
    if !list.is_linked(number) {
        return false;
    }
    list.unlink_counted(number, steps);
    list.len() == 999
}

fn unlinks_the_middle<L: Ledger>(alloc: Global, steps: &mut Steps<L>) -> bool
    ensures { steps.new ≤ steps.old + 4 }
{
    let mut list: WaitList<u64> = WaitList::new(alloc);
    let middle = filled(&mut list);
    unlinks(&mut list, middle, steps)
}

// Polls a hundred acquires of one permit, which wait.
fn queue_a_hundred(core: &mut Core) {
    for waker in 0..100u64 {
        let _ = core.poll_open_checked(&mut Acquire::new(1), waker);
    }
}

// Releases as many permits as a hundred acquires ask for, in at most 602 steps.
fn releases<L: Ledger>(core: &mut Core, steps: &mut Steps<L>) -> bool
    ensures { steps.new ≤ steps.old + 602 }
{
    if core.queue_len() != 100 {
        return false;
    }
    let released = core.release_counted(100, steps);
    released.is_ok() && core.wakes_ready() == 100
}

fn releases_a_hundred<L: Ledger>(alloc: Global, steps: &mut Steps<L>) -> bool
    ensures { steps.new ≤ steps.old + 602 }
{
    let mut core: Core = SemCore::new(alloc, 0);
    queue_a_hundred(&mut core);
    releases(&mut core, steps)
}

fn touches_few<L: Ledger>(alloc: Global, blank: Blank) -> bool
    requires name { blank.name ≡ L.name }
    requires parts { blank.parts ≡ L.parts }
    requires some { 0 < L.parts }
{
    let mut steps = Steps::<L>::new(blank);
    unlinks_the_middle(alloc, &mut steps) && releases_a_hundred(alloc, &mut steps)
}

// Counted calls look at few nodes, and find memory.
#[test]
fn touches(rt: HostRuntime) {
    assert!(rt; touches_few::<Brand>(rt.alloc(), Blank::new(1)));
}
