use crate::halls::play::{Lends, Lent, NOTHING, Row, Script, check_scripts, presence};
use mea_family::{Answer, Stop};
use mea_once::{OnceEvent, OnceFamily, OnceHall};

// A call, a cell, a map, and a group.
impl Lends for OnceFamily {
    fn lent(&self, name: u64) -> Lent {
        [
            presence(self.once(name).is_some()),
            presence(self.cell(name).is_some()),
            presence(self.map(name).is_some()),
            presence(self.flight(name).is_some()),
        ]
    }
}

// When a call completes, those who wait are woken in the order of their polls, and then the next caller.
const A_CALL_RUNS_ONCE: &[Row<'static, OnceEvent>] = &[
    (OnceEvent::OnNew, Ok(Answer::Made), &[]),
    (OnceEvent::OnDone(0), Ok(Answer::No), &[]),
    (OnceEvent::OnCall(0), Ok(Answer::Made), &[]),
    (OnceEvent::OnWait(0), Ok(Answer::Made), &[]),
    (OnceEvent::OnWait(0), Ok(Answer::Made), &[]),
    (OnceEvent::OnPoll(2, 10), Ok(Answer::Pending), &[]),
    (OnceEvent::OnPoll(4, 20), Ok(Answer::Pending), &[]),
    (OnceEvent::OnPoll(3, 21), Ok(Answer::Pending), &[]),
    (OnceEvent::OnCall(0), Ok(Answer::Made), &[]),
    (OnceEvent::OnPoll(8, 30), Ok(Answer::Pending), &[]),
    (OnceEvent::OnSettle(2), Ok(Answer::Done), &[10]),
    (OnceEvent::OnPoll(2, 11), Ok(Answer::Ready), &[20, 21, 30]),
    (OnceEvent::OnDone(0), Ok(Answer::Yes), &[]),
    (OnceEvent::OnPoll(3, 22), Ok(Answer::Ready), &[]),
    (OnceEvent::OnPoll(8, 31), Ok(Answer::Ready), &[]),
    (OnceEvent::OnDrop(0), Err(Stop::Borrowed), &[]),
    (OnceEvent::OnEnd(4), Ok(Answer::Done), &[]),
    (OnceEvent::OnSettle(2), Err(Stop::Unknown), &[]),
    (OnceEvent::OnDrop(0), Ok(Answer::Done), &[]),
    (OnceEvent::OnDone(0), Err(Stop::Unknown), &[]),
];

// The turn goes to the next caller; the waker of a wait that ended stays, beside that which the next initialiser keeps.
const AN_ENDED_CALL_PASSES_ITS_TURN_ON: &[Row<'static, OnceEvent>] = &[
    (OnceEvent::OnNew, Ok(Answer::Made), &[]),
    (OnceEvent::OnWait(0), Ok(Answer::Made), &[]),
    (OnceEvent::OnPoll(1, 9), Ok(Answer::Pending), &[]),
    (OnceEvent::OnCall(0), Ok(Answer::Made), &[]),
    (OnceEvent::OnPoll(3, 5), Ok(Answer::Pending), &[]),
    (OnceEvent::OnCall(0), Ok(Answer::Made), &[]),
    (OnceEvent::OnPoll(5, 6), Ok(Answer::Pending), &[]),
    (OnceEvent::OnEnd(1), Ok(Answer::Done), &[]),
    (OnceEvent::OnSettle(1), Err(Stop::Unknown), &[]),
    (OnceEvent::OnEnd(3), Ok(Answer::Done), &[6]),
    (OnceEvent::OnPoll(5, 7), Ok(Answer::Pending), &[]),
];

// Where an initialiser fails the cell stays empty, and who puts a value in is next; a further one comes back.
const A_CELL_IS_FILLED_ONCE: &[Row<'static, OnceEvent>] = &[
    (OnceEvent::OcNew, Ok(Answer::Made), &[]),
    (OnceEvent::OcInit(0), Ok(Answer::Made), &[]),
    (OnceEvent::OcPoll(1, 40), Ok(Answer::Pending), &[]),
    (OnceEvent::OcSet(0, 9), Ok(Answer::Made), &[]),
    (OnceEvent::OcPoll(3, 41), Ok(Answer::Pending), &[]),
    (OnceEvent::OcFail(1, 4), Ok(Answer::Done), &[40]),
    (OnceEvent::OcPoll(1, 42), Ok(Answer::Failure(4)), &[41]),
    (OnceEvent::OcPoll(3, 43), Ok(Answer::Accepted), &[]),
    (OnceEvent::OcGet(0), Ok(Answer::Value(9)), &[]),
    (OnceEvent::OcSet(0, 3), Ok(Answer::Made), &[]),
    (OnceEvent::OcPoll(9, 44), Ok(Answer::Back(3)), &[]),
    (OnceEvent::OcInto(0), Ok(Answer::Value(9)), &[]),
    (OnceEvent::OcGet(0), Err(Stop::Unknown), &[]),
];

// Each caller hands the turn to the next, who finds the value of the first.
const A_VALUE_IS_SHARED: &[Row<'static, OnceEvent>] = &[
    (OnceEvent::OcNew, Ok(Answer::Made), &[]),
    (OnceEvent::OcInit(0), Ok(Answer::Made), &[]),
    (OnceEvent::OcPoll(1, 10), Ok(Answer::Pending), &[]),
    (OnceEvent::OcInit(0), Ok(Answer::Made), &[]),
    (OnceEvent::OcPoll(3, 11), Ok(Answer::Pending), &[]),
    (OnceEvent::OcInit(0), Ok(Answer::Made), &[]),
    (OnceEvent::OcPoll(5, 12), Ok(Answer::Pending), &[]),
    (OnceEvent::OcSettle(1, 7), Ok(Answer::Done), &[10]),
    (OnceEvent::OcPoll(1, 13), Ok(Answer::Value(7)), &[11]),
    (OnceEvent::OcPoll(3, 14), Ok(Answer::Value(7)), &[12]),
    (OnceEvent::OcPoll(5, 15), Ok(Answer::Value(7)), &[]),
];

// Who uses a cell alone keeps others out of it; who has it whole reads and writes it where nobody has a future of it.
const A_CELL_IS_USED_ALONE: &[Row<'static, OnceEvent>] = &[
    (OnceEvent::OcNew, Ok(Answer::Made), &[]),
    (OnceEvent::OcMinit(0), Ok(Answer::Made), &[]),
    (OnceEvent::OcGet(0), Err(Stop::Borrowed), &[]),
    (OnceEvent::OcPoll(1, 5), Ok(Answer::Pending), &[]),
    (OnceEvent::OcPoll(1, 6), Ok(Answer::Pending), &[]),
    (OnceEvent::OcSettle(1, 7), Ok(Answer::Done), &[6]),
    (OnceEvent::OcSettle(1, 8), Err(Stop::Unknown), &[]),
    (OnceEvent::OcPoll(1, 8), Ok(Answer::Value(7)), &[]),
    (OnceEvent::OcPeek(0), Ok(Answer::Value(7)), &[]),
    (OnceEvent::OcPut(0, 9), Ok(Answer::Done), &[]),
    (OnceEvent::OcIns(0, 5), Ok(Answer::Made), &[]),
    (OnceEvent::OcTake(0), Err(Stop::Borrowed), &[]),
    (OnceEvent::OcPoll(10, 6), Ok(Answer::Kept(9, 5)), &[]),
    (OnceEvent::OcTake(0), Ok(Answer::Value(9)), &[]),
    (OnceEvent::OcPut(0, 1), Ok(Answer::Lacking), &[]),
    (OnceEvent::OcInto(0), Ok(Answer::Lacking), &[]),
    (OnceEvent::OcDrop(0), Err(Stop::Unknown), &[]),
    (OnceEvent::OcFrom(4), Ok(Answer::Made), &[]),
    (OnceEvent::OcGet(17), Ok(Answer::Value(4)), &[]),
    (OnceEvent::OcDrop(17), Ok(Answer::Done), &[]),
];

// A key that was taken out is none of the map any more, and its callers go on; a key that has a value is not computed again.
const A_MAP_COMPUTES_A_KEY_ONCE: &[Row<'static, OnceEvent>] = &[
    (OnceEvent::OmNew, Ok(Answer::Made), &[]),
    (OnceEvent::OmCompute(0, 5), Ok(Answer::Made), &[]),
    (OnceEvent::OmPoll(1, 30), Ok(Answer::Pending), &[]),
    (OnceEvent::OmCompute(0, 5), Ok(Answer::Made), &[]),
    (OnceEvent::OmPoll(3, 31), Ok(Answer::Pending), &[]),
    (OnceEvent::OmRemove(0, 5), Ok(Answer::Lacking), &[]),
    (OnceEvent::OmSettle(1, 77), Ok(Answer::Done), &[30]),
    (OnceEvent::OmPoll(1, 32), Ok(Answer::Value(77)), &[31]),
    (OnceEvent::OmPoll(3, 33), Ok(Answer::Value(77)), &[]),
    (OnceEvent::OmGet(0, 5), Ok(Answer::Lacking), &[]),
    (OnceEvent::OmCompute(0, 6), Ok(Answer::Made), &[]),
    (OnceEvent::OmSettle(10, 3), Ok(Answer::Done), &[]),
    (OnceEvent::OmPoll(10, 40), Ok(Answer::Value(3)), &[]),
    (OnceEvent::OmGet(0, 6), Ok(Answer::Value(3)), &[]),
    (OnceEvent::OmCompute(0, 6), Ok(Answer::Made), &[]),
    (OnceEvent::OmPoll(14, 41), Ok(Answer::Value(3)), &[]),
    (OnceEvent::OmCompute(0, 7), Ok(Answer::Made), &[]),
    (OnceEvent::OmDrop(0), Err(Stop::Borrowed), &[]),
    (OnceEvent::OmFail(16, 2), Ok(Answer::Done), &[]),
    (OnceEvent::OmPoll(16, 42), Ok(Answer::Failure(2)), &[]),
    (OnceEvent::OmRemove(0, 6), Ok(Answer::Value(3)), &[]),
    (OnceEvent::OmGet(0, 6), Ok(Answer::Lacking), &[]),
    (OnceEvent::OmDrop(0), Ok(Answer::Done), &[]),
];

// A key that was forgotten is computed anew beside those who share the value of the first; a group keeps no value.
const A_GROUP_SHARES_WHAT_IS_COMPUTED: &[Row<'static, OnceEvent>] = &[
    (OnceEvent::SfNew, Ok(Answer::Made), &[]),
    (OnceEvent::SfWork(0, 5), Ok(Answer::Made), &[]),
    (OnceEvent::SfPoll(1, 30), Ok(Answer::Pending), &[]),
    (OnceEvent::SfWork(0, 5), Ok(Answer::Made), &[]),
    (OnceEvent::SfPoll(3, 31), Ok(Answer::Pending), &[]),
    (OnceEvent::SfForget(0, 5), Ok(Answer::Done), &[]),
    (OnceEvent::SfWork(0, 5), Ok(Answer::Made), &[]),
    (OnceEvent::SfPoll(6, 32), Ok(Answer::Pending), &[]),
    (OnceEvent::SfSettle(1, 70), Ok(Answer::Done), &[30]),
    (OnceEvent::SfPoll(1, 33), Ok(Answer::Value(70)), &[31]),
    (OnceEvent::SfPoll(3, 34), Ok(Answer::Value(70)), &[]),
    (OnceEvent::SfSettle(6, 71), Ok(Answer::Done), &[32]),
    (OnceEvent::SfPoll(6, 35), Ok(Answer::Value(71)), &[]),
    (OnceEvent::SfWork(0, 5), Ok(Answer::Made), &[]),
    (OnceEvent::SfFail(13, 6), Ok(Answer::Done), &[]),
    (OnceEvent::SfPoll(13, 36), Ok(Answer::Failure(6)), &[]),
    (OnceEvent::SfWork(0, 5), Ok(Answer::Made), &[]),
    (OnceEvent::SfDrop(0), Err(Stop::Borrowed), &[]),
    (OnceEvent::SfEnd(16), Ok(Answer::Done), &[]),
    (OnceEvent::SfDrop(0), Ok(Answer::Done), &[]),
];

// What lives is lent under its name, by its kind alone.
const WHAT_LIVES_IS_LENT: &[Row<'static, OnceEvent>] = &[
    (OnceEvent::OnNew, Ok(Answer::Made), &[]),
    (OnceEvent::OcFrom(3), Ok(Answer::Made), &[]),
    (OnceEvent::OmNew, Ok(Answer::Made), &[]),
    (OnceEvent::SfNew, Ok(Answer::Made), &[]),
    (OnceEvent::OcDrop(1), Ok(Answer::Done), &[]),
];

const SCRIPTS: &[Script<'static, OnceEvent>] = &[
    Script {
        name: "a call runs once",
        rows: A_CALL_RUNS_ONCE,
        registered: 0,
        lent: &[],
    },
    Script {
        name: "an ended call passes its turn on",
        rows: AN_ENDED_CALL_PASSES_ITS_TURN_ON,
        registered: 2,
        lent: &[],
    },
    Script {
        name: "a cell is filled once",
        rows: A_CELL_IS_FILLED_ONCE,
        registered: 0,
        lent: &[],
    },
    Script {
        name: "a value is shared",
        rows: A_VALUE_IS_SHARED,
        registered: 0,
        lent: &[],
    },
    Script {
        name: "a cell is used alone",
        rows: A_CELL_IS_USED_ALONE,
        registered: 0,
        lent: &[],
    },
    Script {
        name: "a map computes a key once",
        rows: A_MAP_COMPUTES_A_KEY_ONCE,
        registered: 0,
        lent: &[],
    },
    Script {
        name: "a group shares what is computed",
        rows: A_GROUP_SHARES_WHAT_IS_COMPUTED,
        registered: 0,
        lent: &[],
    },
    Script {
        name: "what lives is lent",
        rows: WHAT_LIVES_IS_LENT,
        registered: 0,
        lent: &[
            (0, &[Some(0), None, None, None]),
            (1, NOTHING),
            (2, &[None, None, Some(0), None]),
            (3, &[None, None, None, Some(0)]),
        ],
    },
];

#[test]
fn scripts_of_once_types(rt: HostRuntime) {
    check_scripts::<OnceHall, _>(&rt, SCRIPTS);
}
