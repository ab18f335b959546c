use crate::halls::play::{Hall, Lent, NOTHING, Row, Script, answers, check_scripts, gone, refused};
use mea_family::{Answer, Ledger, Stop};
use mea_sem::{SemEvent, SemHall};
use std::alloc::Global;

impl Hall for SemHall {
    ghost use Rattle.mea_sem.specs.Play.{TakesNoMemory};

    type Event = SemEvent;

    ghost next = { λ h. h.next };

    ghost IsFree = { λ event. TakesNoMemory event };

    fn empty(alloc: Global) -> Self {
        SemHall::new(alloc)
    }

    fn act(&mut self, number: u64, event: &SemEvent) -> Result<Answer, Stop> {
        SemHall::act(self, number, event)
    }

    fn next_wake(&mut self) -> Option<u64> {
        SemHall::next_wake(self)
    }

    fn registered(&self) -> usize {
        SemHall::registered(self)
    }

    fn wakes_ready(&self) -> usize {
        SemHall::wakes_ready(self)
    }

    // How many permits are held.
    fn lent(&self, name: u64) -> Lent {
        let held = match self.core(name) {
            Some(core) => Some(core.held() as u64),
            None => None,
        };
        [held, None, None, None]
    }
}

// What is paid in part stands apart from what is free.
const PAID: Ledger = Ledger {
    made: 1,
    released: 0,
    owed: 0,
    free: 0,
    held: 0,
    paid: 1,
    forgotten: 0,
};

// The next was served from what was paid.
const SERVED: Ledger = Ledger {
    made: 1,
    released: 0,
    owed: 0,
    free: 0,
    held: 1,
    paid: 0,
    forgotten: 0,
};

// As many permits as there can be, of which 7 are held.
const AT_THE_MOST: Ledger = Ledger {
    made: 18446744073709551615,
    released: 0,
    owed: 0,
    free: 18446744073709551608,
    held: 7,
    paid: 0,
    forgotten: 0,
};

// Four permits are gone that were made or released.
const FORGOTTEN: Ledger = Ledger {
    made: 3,
    released: 1,
    owed: 0,
    free: 0,
    held: 0,
    paid: 0,
    forgotten: 4,
};

// A debt of three was paid from the permits of those who waited.
const CLOSED: Ledger = Ledger {
    made: 3,
    released: 2,
    owed: 0,
    free: 2,
    held: 0,
    paid: 0,
    forgotten: 3,
};

// Two permits and three futures: the third waits, and is granted when the permit of the first ends.
const A_POOL_OF_TWO: &[Row<'static, SemEvent>] = &[
    (SemEvent::New(2), Ok(Answer::Made), &[]),
    (SemEvent::Acq(0, 1), Ok(Answer::Made), &[]),
    (SemEvent::Acqo(0, 1), Ok(Answer::Made), &[]),
    (SemEvent::Acq(0, 1), Ok(Answer::Made), &[]),
    (SemEvent::Poll(1, 101), Ok(Answer::Ready), &[]),
    (SemEvent::Poll(2, 102), Ok(Answer::Ready), &[]),
    (SemEvent::Poll(3, 103), Ok(Answer::Pending), &[]),
    (SemEvent::Poll(3, 104), Ok(Answer::Pending), &[]),
    (SemEvent::End(4), Ok(Answer::Done), &[104]),
    (SemEvent::Poll(3, 105), Ok(Answer::Ready), &[]),
    (SemEvent::Size(9), Ok(Answer::Permits(1)), &[]),
    (SemEvent::Free(0), Ok(Answer::Free(0)), &[]),
];

// A future that waits and ends gives what it was paid to the next.
const PART_PAYMENT: &[Row<'static, SemEvent>] = &[
    (SemEvent::New(1), Ok(Answer::Made), &[]),
    (SemEvent::Acq(0, 3), Ok(Answer::Made), &[]),
    (SemEvent::Acq(0, 1), Ok(Answer::Made), &[]),
    (SemEvent::Poll(1, 11), Ok(Answer::Pending), &[]),
    (SemEvent::Poll(2, 12), Ok(Answer::Pending), &[]),
    (SemEvent::Ledger(0), Ok(Answer::Account(PAID)), &[]),
    (SemEvent::End(1), Ok(Answer::Done), &[12]),
    (SemEvent::Poll(2, 13), Ok(Answer::Ready), &[]),
    (SemEvent::Ledger(0), Ok(Answer::Account(SERVED)), &[]),
];

// Each future that waits has a waker registered.
const WAKERS_ARE_COUNTED: &[Row<'static, SemEvent>] = &[
    (SemEvent::New(1), Ok(Answer::Made), &[]),
    (SemEvent::Acq(0, 3), Ok(Answer::Made), &[]),
    (SemEvent::Acq(0, 1), Ok(Answer::Made), &[]),
    (SemEvent::Poll(1, 11), Ok(Answer::Pending), &[]),
    (SemEvent::Poll(2, 12), Ok(Answer::Pending), &[]),
    (SemEvent::Poll(2, 13), Ok(Answer::Pending), &[]),
];

// A refused event changes nothing, whatever its cause.
const REFUSALS: &[Row<'static, SemEvent>] = &[
    (SemEvent::New(18446744073709551615), Ok(Answer::Made), &[]),
    (SemEvent::Try(0, 7), Ok(Answer::Held), &[]),
    (SemEvent::Tryo(0, 0), Ok(Answer::Held), &[]),
    (SemEvent::Ledger(0), Ok(Answer::Account(AT_THE_MOST)), &[]),
    (SemEvent::Release(0, 1), Err(Stop::Overflow), &[]),
    (SemEvent::Endsem(0), Err(Stop::Borrowed), &[]),
    (SemEvent::Free(1), Err(Stop::Unknown), &[]),
    (SemEvent::Poll(1, 9), Err(Stop::Unknown), &[]),
    (SemEvent::End(0), Err(Stop::Unknown), &[]),
    (SemEvent::Merge(1, 1), Err(Stop::Unknown), &[]),
    (SemEvent::Merge(1, 2), Err(Stop::Unknown), &[]),
    (SemEvent::Ledger(0), Ok(Answer::Account(AT_THE_MOST)), &[]),
    (SemEvent::End(1), Ok(Answer::Done), &[]),
    (SemEvent::Endsem(0), Ok(Answer::Done), &[]),
    (SemEvent::Release(0, 1), Err(Stop::Unknown), &[]),
    (SemEvent::Endsem(0), Err(Stop::Unknown), &[]),
    (SemEvent::Size(2), Ok(Answer::Permits(0)), &[]),
];

// A forgetting future makes no permit, whether it is ready at once or was granted.
const A_FORGETTING_FUTURE: &[Row<'static, SemEvent>] = &[
    (SemEvent::New(3), Ok(Answer::Made), &[]),
    (SemEvent::Acqf(0, 2), Ok(Answer::Made), &[]),
    (SemEvent::Poll(1, 11), Ok(Answer::Ready), &[]),
    (SemEvent::Size(2), Err(Stop::Unknown), &[]),
    (SemEvent::Free(0), Ok(Answer::Free(1)), &[]),
    (SemEvent::Acqof(0, 2), Ok(Answer::Made), &[]),
    (SemEvent::Poll(5, 12), Ok(Answer::Pending), &[]),
    (SemEvent::Release(0, 1), Ok(Answer::Done), &[12]),
    (SemEvent::Poll(5, 13), Ok(Answer::Ready), &[]),
    (SemEvent::Size(8), Err(Stop::Unknown), &[]),
    (SemEvent::Ledger(0), Ok(Answer::Account(FORGOTTEN)), &[]),
    (SemEvent::Endsem(0), Ok(Answer::Done), &[]),
];

// A close cuts all that wait, and pours what they were paid: here a debt takes it. A permit that was held
// gives its part back later, and no acquire is given any.
const A_CLOSED_SEMAPHORE: &[Row<'static, SemEvent>] = &[
    (SemEvent::New(3), Ok(Answer::Made), &[]),
    (SemEvent::Try(0, 1), Ok(Answer::Held), &[]),
    (SemEvent::Acqo(0, 4), Ok(Answer::Made), &[]),
    (SemEvent::Poll(2, 11), Ok(Answer::Pending), &[]),
    (SemEvent::Acq(0, 1), Ok(Answer::Made), &[]),
    (SemEvent::Poll(4, 12), Ok(Answer::Pending), &[]),
    (SemEvent::Forgetx(0, 3), Ok(Answer::Done), &[]),
    (SemEvent::Closed(0), Ok(Answer::No), &[]),
    (SemEvent::Close(0), Ok(Answer::Done), &[11, 12]),
    (SemEvent::Closed(0), Ok(Answer::Yes), &[]),
    (SemEvent::Free(0), Ok(Answer::Free(0)), &[]),
    (SemEvent::Poll(2, 13), Ok(Answer::Gone), &[]),
    (SemEvent::Poll(2, 14), Err(Stop::Unknown), &[]),
    (SemEvent::End(4), Ok(Answer::Done), &[]),
    (SemEvent::End(1), Ok(Answer::Done), &[]),
    (SemEvent::Free(0), Ok(Answer::Free(0)), &[]),
    (SemEvent::Release(0, 2), Ok(Answer::Done), &[]),
    (SemEvent::Try(0, 1), Ok(Answer::Lacking), &[]),
    (SemEvent::Tryf(0, 1), Ok(Answer::No), &[]),
    (SemEvent::Acqo(0, 0), Ok(Answer::Made), &[]),
    (SemEvent::Poll(19, 15), Ok(Answer::Gone), &[]),
    (SemEvent::Close(0), Ok(Answer::Done), &[]),
    (SemEvent::Ledger(0), Ok(Answer::Account(CLOSED)), &[]),
    (SemEvent::Endsem(0), Ok(Answer::Done), &[]),
];

// An owned future outlives the name of its semaphore, and is told that it was closed. One that was granted
// before the close is ready.
const FUTURES_OF_A_CLOSED_SEMAPHORE: &[Row<'static, SemEvent>] = &[
    (SemEvent::New(1), Ok(Answer::Made), &[]),
    (SemEvent::Acqo(0, 2), Ok(Answer::Made), &[]),
    (SemEvent::Acqo(0, 1), Ok(Answer::Made), &[]),
    (SemEvent::Poll(1, 21), Ok(Answer::Pending), &[]),
    (SemEvent::Poll(2, 22), Ok(Answer::Pending), &[]),
    (SemEvent::Release(0, 1), Ok(Answer::Done), &[21]),
    (SemEvent::Close(0), Ok(Answer::Done), &[22]),
    (SemEvent::Endsem(0), Ok(Answer::Done), &[]),
    (SemEvent::Closed(0), Err(Stop::Unknown), &[]),
    (SemEvent::Poll(1, 23), Ok(Answer::Ready), &[]),
    (SemEvent::Poll(2, 24), Ok(Answer::Gone), &[]),
    (SemEvent::Close(0), Err(Stop::Unknown), &[]),
];

const SCRIPTS: &[Script<'static, SemEvent>] = &[
    Script {
        name: "a pool of two",
        rows: A_POOL_OF_TWO,
        registered: 0,
        lent: &[(0, &[Some(2), None, None, None])],
    },
    Script {
        name: "part payment",
        rows: PART_PAYMENT,
        registered: 0,
        lent: &[],
    },
    Script {
        name: "wakers are counted",
        rows: WAKERS_ARE_COUNTED,
        registered: 2,
        lent: &[],
    },
    Script {
        name: "refusals",
        rows: REFUSALS,
        registered: 0,
        lent: &[(0, NOTHING)],
    },
    Script {
        name: "a forgetting future",
        rows: A_FORGETTING_FUTURE,
        registered: 0,
        lent: &[],
    },
    Script {
        name: "a closed semaphore",
        rows: A_CLOSED_SEMAPHORE,
        registered: 0,
        lent: &[],
    },
    Script {
        name: "futures of a closed semaphore",
        rows: FUTURES_OF_A_CLOSED_SEMAPHORE,
        registered: 0,
        lent: &[],
    },
];

#[test]
fn scripts_of_semaphores(rt: HostRuntime) {
    check_scripts::<SemHall, _>(&rt, SCRIPTS);
}

// A release takes no memory, and is refused for its cause alone.
#[test]
fn no_memory_is_taken(rt: HostRuntime) {
    let mut hall = SemHall::empty(rt.alloc());
    let unknown = Some(Stop::Unknown);
    assert_eq!(rt; refused(&mut hall, 0, &SemEvent::Release(0, 1)), unknown);
    assert!(rt; answers(&mut hall, 1, &SemEvent::New(0), Answer::Made));
    assert_eq!(rt; refused(&mut hall, 2, &SemEvent::Release(0, 2)), unknown);
    assert_eq!(rt; refused(&mut hall, 3, &SemEvent::Release(1, 2)), None);
    gone(hall);
}
