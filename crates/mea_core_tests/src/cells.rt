use crate::inits::{Computes, Settling};
use crate::play::Reply;
use crate::play::Reply::{Back, Done, Error, Nothing, Pending, Value};
use mea_base::Poll;
use mea_once_core::{CellCore, CellStage, CellTurn, InitCall, InsertCall};
use mea_test_support::{Plays, differs_at};
use std::alloc::Global;

type Cell = CellCore<u64, u64>;

type Init = InitCall<Settling>;

type Insert = InsertCall<u64>;

// A call of a cell. Computations and values to be put are told apart by the order in which they are made.
#[derive(Clone, Copy)]
enum Call {
    Compute,
    PollInit(usize, u64),
    Settle(usize, Result<u64, u64>),
    EndInit(usize),
    Insert(u64),
    PollInsert(usize, u64),
    EndInsert(usize),
    // Makes a computation that is polled for its turn alone.
    Turn(u64),
    Wake,
    Get,
    IsIdle,
}

// A cell, and the calls that were made.
#[derive(Drop)]
struct Room {
    cell: Cell,
    inits: Vec<Option<Init>>,
    inserts: Vec<Option<Insert>>,
}

impl Room {
    fn new(alloc: Global) -> Room {
        Room {
            cell: CellCore::new(alloc),
            inits: Vec::new(alloc),
            inserts: Vec::new(alloc),
        }
    }
}

impl Plays for Room {
    type Call = Call;

    type Reply = Reply;

    fn reply(&mut self, call: Call) -> Option<Reply> {
        match call {
            Call::Compute => made(&mut self.inits, InitCall::new(Settling::new()), Done),
            Call::PollInit(place, waker) => {
                polled(&mut self.cell, self.inits.get_mut(place)?, waker)
            }
            Call::Settle(place, end) => settled(self.inits.get_mut(place)?, end),
            Call::EndInit(place) => init_ended(&mut self.cell, self.inits.get_mut(place)?),
            Call::Insert(value) => made(&mut self.inserts, InsertCall::new(value), Done),
            Call::PollInsert(place, waker) => {
                inserted(&mut self.cell, self.inserts.get_mut(place)?, waker)
            }
            Call::EndInsert(place) => insert_ended(&mut self.cell, self.inserts.get_mut(place)?),
            Call::Turn(waker) => turned(&mut self.cell, &mut self.inits, waker),
            Call::Wake => Some(Reply::found(self.cell.next_wake())),
            Call::Get => Some(Reply::found(self.cell.get().copied())),
            Call::IsIdle => Some(if self.cell.is_idle() { Done } else { Pending }),
        }
    }
}

fn made<T: Drop>(calls: &mut Vec<Option<T>>, call: T, told: Reply) -> Option<Reply> {
    match calls.push(Some(call)) {
        Ok(()) => Some(told),
        Err(_) => None,
    }
}

fn polled(cell: &mut Cell, call: &mut Option<Init>, waker: u64) -> Option<Reply> {
    match cell.poll_init_checked(call.as_mut()?, waker) {
        Ok(Poll::Pending) => Some(Pending),
        Ok(Poll::Ready(Err(e))) => Some(Error(e)),
        Ok(Poll::Ready(Ok(()))) => Some(Reply::found(cell.get().copied())),
        Err(_) => None,
    }
}

fn settled(call: &mut Option<Init>, end: Result<u64, u64>) -> Option<Reply> {
    Some(Reply::found(call.as_mut()?.init.settle(end)))
}

fn init_ended(cell: &mut Cell, call: &mut Option<Init>) -> Option<Reply> {
    cell.end_init_checked(call.take()?);
    Some(Done)
}

fn inserted(cell: &mut Cell, call: &mut Option<Insert>, waker: u64) -> Option<Reply> {
    match cell.poll_insert_checked(call.as_mut()?, waker) {
        Ok(Poll::Pending) => Some(Pending),
        Ok(Poll::Ready(Ok(()))) => Some(Done),
        Ok(Poll::Ready(Err(value))) => Some(Back(value)),
        Err(_) => None,
    }
}

fn insert_ended(cell: &mut Cell, call: &mut Option<Insert>) -> Option<Reply> {
    let ended = call.take()?;
    if ended.value.is_none() {
        return None;
    }
    Some(Back(cell.end_insert_checked(ended)))
}

fn turned(cell: &mut Cell, calls: &mut Vec<Option<Init>>, waker: u64) -> Option<Reply> {
    let mut stage = CellStage::New;
    match cell.poll_turn(&mut stage, waker) {
        Ok(CellTurn::Mine(waker)) => {
            let init = Settling::new();
            made(calls, InitCall { init, stage }, Value(waker))
        }
        _ => None,
    }
}

const SCRIPTS: &[&[(Call, Reply)]] = &[
    // A computation that fails hands the cell to the next caller, which puts its value; a later one has its own
    // back.
    &[
        (Call::Compute, Done),
        (Call::Insert(9), Done),
        (Call::PollInit(0, 40), Pending),
        (Call::PollInsert(0, 41), Pending),
        (Call::Settle(0, Err(4)), Value(40)),
        (Call::PollInit(0, 42), Error(4)),
        (Call::Wake, Value(41)),
        (Call::Wake, Nothing),
        (Call::PollInsert(0, 43), Done),
        (Call::Wake, Nothing),
        (Call::Get, Value(9)),
        (Call::Insert(3), Done),
        (Call::PollInsert(1, 44), Back(3)),
        (Call::Wake, Nothing),
    ],
    // A value that was computed goes from caller to caller, each of whom wakes the next.
    &[
        (Call::Compute, Done),
        (Call::Compute, Done),
        (Call::Compute, Done),
        (Call::PollInit(0, 10), Pending),
        (Call::PollInit(1, 11), Pending),
        (Call::PollInit(2, 12), Pending),
        (Call::Settle(0, Ok(7)), Value(10)),
        (Call::PollInit(0, 13), Value(7)),
        (Call::Wake, Value(11)),
        (Call::PollInit(1, 14), Value(7)),
        (Call::Wake, Value(12)),
        (Call::PollInit(2, 15), Value(7)),
        (Call::Wake, Nothing),
        (Call::IsIdle, Done),
    ],
    // A call that is given up while its initialiser runs hands the cell to the next, at whatever stage that is.
    &[
        (Call::Compute, Done),
        (Call::Compute, Done),
        (Call::Compute, Done),
        (Call::PollInit(0, 10), Pending),
        (Call::PollInit(1, 11), Pending),
        (Call::PollInit(2, 12), Pending),
        (Call::EndInit(0), Done),
        (Call::Wake, Value(11)),
        (Call::EndInit(1), Done),
        (Call::Wake, Value(12)),
        (Call::PollInit(2, 13), Pending),
        (Call::Settle(2, Ok(1)), Value(13)),
        (Call::PollInit(2, 14), Value(1)),
    ],
    // Who has the turn may fill the cell with no initialiser at hand, or give the turn up.
    &[
        (Call::Turn(10), Value(10)),
        (Call::Insert(2), Done),
        (Call::PollInsert(0, 11), Pending),
        (Call::Compute, Done),
        (Call::PollInit(1, 12), Pending),
        (Call::EndInit(0), Done),
        (Call::Wake, Value(11)),
        (Call::EndInsert(0), Back(2)),
        (Call::Wake, Value(12)),
        (Call::PollInit(1, 13), Pending),
        (Call::Settle(1, Ok(5)), Value(13)),
        (Call::PollInit(1, 14), Value(5)),
    ],
];

// The place of the first call that tells something else.
fn differs(alloc: Global, script: &[(Call, Reply)]) -> Option<usize> {
    differs_at(Room::new(alloc), script)
}

#[test]
fn calls_of_a_cell(rt: HostRuntime) {
    for script in SCRIPTS {
        assert_eq!(rt; differs(rt.alloc(), script), None);
    }
}

// What a cell holds after a poll of a computation that is ready at once.
fn computed<F: Fn() -> u64>(cell: &mut Cell, compute: F) -> Option<u64>
    requires { F.IsAlwaysCallable compute }
{
    let mut call = InitCall::new(Computes { compute });
    match cell.poll_init_checked(&mut call, 10) {
        Ok(Poll::Ready(Ok(()))) => cell.get().copied(),
        _ => None,
    }
}

fn computed_by_a_closure(alloc: Global) -> Option<u64> {
    let mut cell: Cell = CellCore::new(alloc);
    computed(&mut cell, || 7)
}

// A closure is an initialiser.
#[test]
fn a_closure_computes(rt: HostRuntime) {
    assert_eq!(rt; computed_by_a_closure(rt.alloc()), Some(7));
}
