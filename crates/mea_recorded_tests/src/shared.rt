ghost use Rattle.std.specs.Prelude.{◌≡◌, ◌≤◌};

use crate::meeting::Meeting;
use mea_counted::{Lack, NamedPermit, NamedSemaphore};
use std::alloc::Global;
use std::marker::Brand;
use std::process::Abort;
use std::sync::Wait;
use std::sync::ledger::{Blank, Ledger};
use std::thread;
use std::thread::Threads;

// A call of a semaphore. Permits are told apart by the order in which they are taken.
#[derive(Clone, Copy)]
enum Call {
    Try(usize),
    Release(usize),
    End(usize),
    // Lets a permit go without ending it.
    Drop(usize),
    // Merges the second into the first.
    Merge(usize, usize),
    Grow(usize, usize),
    GiveBack(usize, usize),
    Permits(usize),
    Parts(usize),
}

// What a call tells.
#[derive(Clone, Copy, PartialEq, Eq)]
enum Reply {
    Done,
    Lacks(Lack),
    Overflow,
    Count(u64),
}

type Permits<L> = Vec<Option<NamedPermit<L>>>;

// What a call tells; none of a permit that is not there. It has no clauses, nor have the calls below that it makes, so that no
// test carries what the semaphore promises.
fn answer<L: Ledger, R: Wait>(
    rt: &R,
    semaphore: &NamedSemaphore<L>,
    permits: &mut Permits<L>,
    call: Call,
) -> Option<Reply> {
    match call {
        Call::Try(n) => tried(rt, semaphore, permits, n),
        Call::Release(n) => Some(whether_done(semaphore.release(rt, n).is_ok())),
        Call::End(place) => {
            taken(permits, place)?.end(rt, semaphore);
            Some(Reply::Done)
        }
        Call::Drop(place) => {
            drop(taken(permits, place)?);
            Some(Reply::Done)
        }
        Call::Merge(place, other) => {
            let other = taken(permits, other)?;
            merged(permits.get_mut(place)?.as_mut()?, other)
        }
        Call::Grow(place, n) => {
            let permit = permits.get_mut(place)?.as_mut()?;
            Some(whether_done(permit.grow(rt, semaphore, n).is_ok()))
        }
        Call::GiveBack(place, n) => {
            given_back(rt, semaphore, permits.get_mut(place)?.as_mut()?, n)
        }
        Call::Permits(place) => {
            let permit = permits.get(place)?.as_ref()?;
            Some(Reply::Count(permit.permits() as u64))
        }
        Call::Parts(place) => Some(Reply::Count(permits.get(place)?.as_ref()?.parts())),
    }
}

fn whether_done(done: bool) -> Reply {
    if done { Reply::Done } else { Reply::Overflow }
}

fn taken<L: Ledger>(permits: &mut Permits<L>, place: usize) -> Option<NamedPermit<L>> {
    permits.get_mut(place)?.take()
}

fn tried<L: Ledger, R: Wait>(
    rt: &R,
    semaphore: &NamedSemaphore<L>,
    permits: &mut Permits<L>,
    n: usize,
) -> Option<Reply> {
    match semaphore.try_acquire(rt, n) {
        Ok(permit) => {
            permits.push(Some(permit)).ok()?;
            Some(Reply::Done)
        }
        Err(lack) => Some(Reply::Lacks(lack)),
    }
}

fn merged<L: Ledger>(permit: &mut NamedPermit<L>, other: NamedPermit<L>) -> Option<Reply> {
    permit.permits().checked_add(other.permits())?;
    permit.parts().checked_add(other.parts())?;
    permit.merge(other);
    Some(Reply::Done)
}

fn given_back<L: Ledger, R: Wait>(
    rt: &R,
    semaphore: &NamedSemaphore<L>,
    permit: &mut NamedPermit<L>,
    n: usize,
) -> Option<Reply> {
    let held = permit.permits();
    if n > held {
        return None;
    }
    permit.give_back(rt, semaphore, n);
    Some(Reply::Done)
}

// The place of the first call that tells something else.
fn differs<L: Ledger, R: Wait>(
    rt: &R,
    semaphore: &NamedSemaphore<L>,
    permits: &mut Permits<L>,
    script: &[(Call, Reply)],
) -> Option<usize> {
    for (place, (call, told)) in script.iter().enumerate() {
        if answer(rt, semaphore, permits, *call) != Some(*told) {
            return Some(place);
        }
    }
    None
}

// The permits that are there.
fn kept<L: Ledger>(
    rt: &impl Abort,
    alloc: Global,
    permits: &mut Permits<L>,
) -> Vec<NamedPermit<L>> {
    let mut kept = Vec::new(alloc);
    for place in 0..permits.len() {
        if let Some(permit) = taken(permits, place) {
            kept.push(permit).expect(rt, "memory");
        }
    }
    kept
}

// What a close comes to: how many permits are held, and how many are free; or how many parts came back, and of how many.
type Closed = Result<(usize, usize), (u64, u64)>;

fn closed<L: Ledger>(semaphore: NamedSemaphore<L>, permits: Vec<NamedPermit<L>>) -> Closed {
    match semaphore.close(permits) {
        Ok(core) => Ok((core.held(), core.available_permits())),
        Err(missing) => Err((missing.parts, missing.of)),
    }
}

// A semaphore of so many parts and permits, what is called, and what a close comes to then.
struct Row {
    parts: u64,
    permits: usize,
    script: &'static [(Call, Reply)],
    closed: Closed,
}

const ROWS: &[Row] = &[
    // A try takes what is free, or tells what lacks; no clause refuses one that is refused at once. A single part is left in
    // the end: permits are told first.
    Row {
        parts: 3,
        permits: 5,
        script: &[
            (Call::Try(6), Reply::Lacks(Lack::Permits)),
            (Call::Try(2), Reply::Done),
            (Call::Try(0), Reply::Done),
            (Call::Try(4), Reply::Lacks(Lack::Permits)),
            (Call::Try(3), Reply::Lacks(Lack::Parts)),
            (Call::Try(0), Reply::Lacks(Lack::Parts)),
            (Call::End(1), Reply::Done),
            (Call::Try(3), Reply::Done),
        ],
        closed: Ok((5, 0)),
    },
    // A release adds permits; no clause refuses one that adds nothing.
    Row {
        parts: 2,
        permits: 1,
        script: &[
            (Call::Release(usize::MAX), Reply::Overflow),
            (Call::Release(2), Reply::Done),
            (Call::Try(3), Reply::Done),
        ],
        closed: Ok((3, 0)),
    },
    // An end gives back all permits and the part; no clause refuses one that only drops the permit.
    Row {
        parts: 2,
        permits: 4,
        script: &[
            (Call::Try(4), Reply::Done),
            (Call::End(0), Reply::Done),
            (Call::Try(4), Reply::Done),
            (Call::End(1), Reply::Done),
            (Call::Try(4), Reply::Done),
            (Call::End(2), Reply::Done),
        ],
        closed: Ok((0, 4)),
    },
    // A permit that is dropped is missing.
    Row {
        parts: 4,
        permits: 2,
        script: &[
            (Call::Try(1), Reply::Done),
            (Call::Try(1), Reply::Done),
            (Call::Drop(1), Reply::Done),
        ],
        closed: Err((3, 4)),
    },
    // Merged permits end as one.
    Row {
        parts: 4,
        permits: 7,
        script: &[
            (Call::Try(2), Reply::Done),
            (Call::Try(3), Reply::Done),
            (Call::Merge(0, 1), Reply::Done),
            (Call::Permits(0), Reply::Count(5)),
            (Call::Parts(0), Reply::Count(2)),
            (Call::End(0), Reply::Done),
            (Call::Try(7), Reply::Done),
        ],
        closed: Ok((7, 0)),
    },
    // A permit grows and gives back; what it grew by is held, and not free.
    Row {
        parts: 3,
        permits: 1,
        script: &[
            (Call::Try(1), Reply::Done),
            (Call::Grow(0, usize::MAX), Reply::Overflow),
            (Call::Grow(0, 4), Reply::Done),
            (Call::Permits(0), Reply::Count(5)),
            (Call::Try(1), Reply::Lacks(Lack::Permits)),
            (Call::GiveBack(0, 3), Reply::Done),
            (Call::Try(3), Reply::Done),
        ],
        closed: Ok((5, 0)),
    },
];

// Plays a row on a semaphore of so many parts, which are those of its ledger.
fn plays<L: Ledger, R: Wait + Abort>(rt: &R, alloc: Global, blank: Blank, parts: u64, row: &Row)
    requires name { blank.name ≡ L.name }
    requires parts { (blank.parts ≡ L.parts) × (L.parts ≡ parts) × (2 ≤ parts) }
{
    let semaphore = NamedSemaphore::<L>::new(alloc, blank, parts, row.permits);
    let mut permits = Vec::new(alloc);
    assert_eq!(rt; differs(rt, &semaphore, &mut permits, row.script), None);
    let kept = kept(rt, alloc, &mut permits);
    assert!(rt; closed(semaphore, kept) == row.closed);
}

#[test]
fn calls_of_a_counted_semaphore(rt: HostRuntime) {
    for row in ROWS {
        let parts = row.parts;
        assert!(rt; parts >= 2);
        plays::<Brand, HostRuntime>(&rt, rt.alloc(), Blank::new(parts), parts, row);
    }
}

// Why a try is refused, if it is.
fn lack<L: Ledger, R: Wait>(rt: &R, semaphore: &NamedSemaphore<L>, n: usize) -> Option<Lack> {
    semaphore.try_acquire(rt, n).err()
}

// Tries for a permit, and holds it until the other's try was answered too; a third is refused then.
fn hold<L: Ledger, R: Wait>(
    rt: &R,
    semaphore: &NamedSemaphore<L>,
    meeting: &Meeting,
    is_first: bool,
) -> bool {
    let mut refused = false;
    for _ in 0..100u32 {
        let permit = semaphore.try_acquire(rt, 1);
        meeting.meet(is_first);
        refused = lack(rt, semaphore, 1) == Some(Lack::Permits);
        meeting.meet(is_first);
        if let Ok(permit) = permit {
            permit.end(rt, semaphore);
        }
        meeting.meet(is_first);
        if !refused {
            return false;
        }
    }
    refused
}

fn holds<L: Ledger + Send + Sync, R: Threads + Wait + Abort + Sync>(
    rt: &R,
    alloc: Global,
    blank: Blank,
)
    requires name { blank.name ≡ L.name }
    requires parts { (blank.parts ≡ L.parts) × (L.parts ≡ 8) }
{
    let semaphore = NamedSemaphore::<L>::new(alloc, blank, 8, 2);
    let meeting = Meeting::new();
    let (one, other) = thread::join(
        rt,
        || hold(rt, &semaphore, &meeting, true),
        || hold(rt, &semaphore, &meeting, false),
    );
    assert!(rt; one && other);
    assert_eq!(rt; meeting.late(), 0);
    assert!(rt; closed(semaphore, Vec::new(alloc)) == Ok((0, 2)));
}

// Two threads run at the same time: neither ends its permit before the other's try was answered.
#[test]
fn two_threads_hold_both_permits(rt: HostRuntime) {
    holds::<Brand, HostRuntime>(&rt, rt.alloc(), Blank::new(8));
}
