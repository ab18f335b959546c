use crate::task::{Call, Task};
use mea::once::{CellClaim, Once, OnceCell};
use mea::{AtOnce, Claimed, End};
use std::process::Abort;
use std::sync::Wait;
use std::sync::atomic::AtomicU64;
use std::sync::atomic::Ordering::SeqCst;

// A call that runs once: who comes second finds that it has run.
#[test]
fn a_set_up_that_runs_once(rt: HostRuntime) {
    let task = Task::new(&rt);
    let set_up = Once::new(rt.alloc());
    let runs = AtomicU64::new(0);
    for _ in 0..2u32 {
        let run = AtOnce::new(|| {
            runs.fetch_add(1, SeqCst);
        });
        assert!(rt; task.now(&rt, set_up.call_once(run)) == Some(()));
    }
    assert!(rt; runs.load(SeqCst) == 1);
    assert!(rt; task.now(&rt, set_up.wait()) == Some(()));
}

// What a claim of a cell comes to: its value, or the turn to fill it.
type Outcome<'c> = Claimed<&'c u64, CellClaim<'c, u64, Call>>;

// The turn to fill a cell, if it is there.
fn turn(claimed: Option<Outcome<'_>>) -> Option<CellClaim<'_, u64, Call>> {
    match claimed? {
        Claimed::Mine(claim) => Some(claim),
        Claimed::There(_) => None,
    }
}

// The value of a cell, if it is there. A turn to fill it is passed on.
fn value<R: Wait>(rt: &R, claimed: Option<Outcome<'_>>) -> Option<u64> {
    match claimed? {
        Claimed::There(value) => Some(*value),
        Claimed::Mine(claim) => {
            claim.end(rt);
            None
        }
    }
}

// Two tasks come to an empty cell. The first has the turn, and the second waits for what it computes.
#[test]
fn a_cell_is_filled_by_one_of_two(rt: HostRuntime) {
    let (first, second) = (Task::new(&rt), Task::new(&rt));
    let cell = OnceCell::new(rt.alloc());
    fills(&rt, &first, &second, &cell);
    assert!(rt; cell.into_inner() == Some(7));
}

fn fills<R: Wait + Abort>(rt: &R, first: &Task, second: &Task, cell: &OnceCell<u64, Call>) {
    let claim = turn(first.now(rt, cell.claim())).expect(rt, "an empty cell");
    let (early, wait) = second.poll(rt, cell.claim());
    assert!(rt; value(rt, early).is_none());
    assert!(rt; *claim.finish(rt, 7) == 7);
    assert!(rt; second.calls() == 1);
    assert!(rt; value(rt, second.again(rt, wait)) == Some(7));
}
