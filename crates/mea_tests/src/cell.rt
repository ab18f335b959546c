use crate::claims::{gave, mine, queues, there};
use crate::counts::bell;
use crate::inits::{Fails, Gives};
use mea_keep::once::OnceCell;
use mea_keep::{Claim, Claimed, TryAtOnce};
use mea_test_support::{Bell, Count, end, gives, rung};
use mea_wait::{End, Waits};
use std::process::Abort;
use std::sync::Wait;

type Cell = OnceCell<u64, Bell>;

// What the cell has for who computes this value.
fn computed<R: Wait>(rt: &R, cell: &Cell, value: u64, bell: &Count) -> Option<u64> {
    let found = gives(rt, Some(cell.get_or_init(Gives(value))), bell)?;
    Some(*found)
}

// The same, where the initialiser may have an error.
fn tried<R: Wait>(
    rt: &R,
    cell: &Cell,
    answer: Result<u64, u8>,
    bell: &Count,
) -> Option<Result<u64, u8>> {
    match gives(
        rt,
        Some(cell.get_or_try_init(TryAtOnce::new(|| answer))),
        bell,
    )? {
        Ok(found) => Some(Ok(*found)),
        Err(error) => Some(Err(error)),
    }
}

// A claim that is ended passes the turn on. Who has the turn fills the cell; the next that waits is woken and finds the value.
#[test]
fn a_claim_is_passed_on_and_finished(rt: HostRuntime) {
    let one = bell(&rt);
    let two = bell(&rt);
    let three = bell(&rt);
    let cell = Cell::new(rt.alloc());
    let callers = (cell.claim(), cell.claim(), cell.claim());
    is_finished(&rt, &cell, callers, (&one, &two, &three));
    is_full(&rt, &cell, &one);
}

fn is_finished<
    'c,
    R: Wait + Abort,
    F: Waits<Bell, Claimed<&'c u64, C>>,
    C: Claim<u64, &'c u64, G>,
    G: End,
>(rt: &R, cell: &'c Cell, callers: (F, F, F), bells: (&Count, &Count, &Count))
    requires first { F.can_poll callers.0 }
    requires second { F.can_poll callers.1 }
    requires third { F.can_poll callers.2 }
{
    let (one, two, three) = bells;
    let (first, second, third) = callers;
    let first = mine(rt, Some(first), one);
    let second = queues(rt, second, two);
    assert!(rt; end(rt, first));
    assert!(rt; (rung(one), rung(two)) == (0, 1));
    let claim = mine(rt, second, two);
    let third = queues(rt, third, three);
    assert!(rt; cell.get().is_none());
    assert!(rt; gave(rt, claim, 5) == Some(&5));
    assert!(rt; (rung(one), rung(two), rung(three)) == (0, 1, 1));
    assert!(rt; there(rt, third, three) == Some(&5));
}

fn is_full<R: Wait + Abort>(rt: &R, cell: &Cell, bell: &Count) {
    assert!(rt; cell.get() == Some(&5));
    assert!(rt; gives(rt, Some(cell.set(9)), bell) == Some(Err(9)));
    assert!(rt; gives(rt, Some(cell.try_insert(9)), bell) == Some(Err((&5, 9))));
    assert!(rt; computed(rt, cell, 7, bell) == Some(5));
}

// An initialiser that has an error leaves the cell empty. Who has the whole cell writes and takes its value.
#[test]
fn a_cell_is_tried_and_lent_whole(rt: HostRuntime) {
    let bell = bell(&rt);
    let mut cell = Cell::new(rt.alloc());
    is_tried(&rt, &cell, &bell);
    assert!(rt; cell.take() == Some(1));
    is_lent(&rt, &mut cell, &bell);
    assert!(rt; gives(&rt, Some(cell.set(3)), &bell) == Some(Ok(())));
    assert!(rt; cell.get() == Some(&3));
    let full = Cell::from_value(rt.alloc(), 2);
    assert!(rt; !full.is_equal(&cell));
    assert!(rt; full.into_inner() == Some(2));
}

fn is_tried<R: Wait + Abort>(rt: &R, cell: &Cell, bell: &Count) {
    assert!(rt; tried(rt, cell, Err(4), bell) == Some(Err(4)));
    assert!(rt; cell.get().is_none());
    assert!(rt; tried(rt, cell, Ok(1), bell) == Some(Ok(1)));
}

fn is_lent<R: Wait + Abort>(rt: &R, cell: &mut Cell, bell: &Count) {
    assert!(rt; writes(rt, cell, 5, 6, bell));
    assert!(rt; reads(rt, cell, bell) == Some(6));
    assert!(rt; equals_its_clone(cell));
    assert!(rt; cell.get_mut() == Some(&mut 6));
    assert!(rt; cell.take() == Some(6));
    assert!(rt; cell.take().is_none());
}

// Fills an empty cell with a value, and writes another; tells whether the first was there.
fn writes<R: Wait>(rt: &R, cell: &mut Cell, first: u64, second: u64, bell: &Count) -> bool {
    match gives(rt, Some(cell.get_mut_or_init(Gives(first))), bell) {
        Some(value) => {
            let was_first = *value == first;
            *value = second;
            was_first
        }
        None => false,
    }
}

// What a full cell has, whose initialiser is not run.
fn reads<R: Wait>(rt: &R, cell: &mut Cell, bell: &Count) -> Option<u64> {
    match gives(rt, Some(cell.get_mut_or_try_init(Fails)), bell) {
        Some(Ok(value)) => Some(*value),
        Some(Err(_)) | None => None,
    }
}

fn equals_its_clone(cell: &Cell) -> bool {
    match cell.try_clone() {
        Ok(other) => other.is_equal(cell),
        Err(_) => false,
    }
}
