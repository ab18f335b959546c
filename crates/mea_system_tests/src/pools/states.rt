use crate::programs::Pools;
use crate::rows::{Row, check_rows};
use mea_script::Status;

// A poll, a use, a return and an end of a wait for a lease in each of its states.
const WAITS: &[Row] = &[
    // Nothing has the name.
    Row {
        words: &["pool", "1"],
        script: "poll 9 1/use 9 1/back 9/end 9",
        text: "unknown/unknown/unknown/unknown/done 4",
        status: Status::Done,
    },
    // It was never polled.
    Row {
        words: &["pool", "1"],
        script: "ask/use 0 1/back 0/end 0/end 0",
        text: "made/unknown/unknown/done/unknown/done 5",
        status: Status::Done,
    },
    Row {
        words: &["pool", "1"],
        script: "ask/poll 0 1",
        text: "made/lease 0 0/done 2",
        status: Status::Done,
    },
    // It waits.
    Row {
        words: &["pool", "1"],
        script: "ask/poll 0 1/ask/poll 2 2/use 2 1/back 2/poll 2 3/end 2/end 2/back 1",
        text: "made/lease 0 0/made/pending/unknown/unknown/pending/done/unknown/done/done 10",
        status: Status::Done,
    },
    // It was granted a place.
    Row {
        words: &["pool", "1"],
        script: "ask/poll 0 1/ask/poll 2 2/back 1/use 2 1/back 2/poll 2 3/idle",
        text: "made/lease 0 0/made/pending/done wake 2/unknown/unknown/lease 0 0/count 0/done 9",
        status: Status::Done,
    },
    Row {
        words: &["pool", "1"],
        script: "ask/poll 0 1/ask/poll 2 2/back 1/end 2/end 2/poll 2 3/idle",
        text: "made/lease 0 0/made/pending/done wake 2/done/unknown/unknown/count 1/done 9",
        status: Status::Done,
    },
    // The drain has cut it.
    Row {
        words: &["pool", "1"],
        script: "ask/poll 0 1/ask/poll 2 2/drain/use 2 1/back 2/poll 2 3/poll 2 4",
        text: "made/lease 0 0/made/pending/done wake 2/unknown/unknown/gone/unknown/done 9",
        status: Status::Done,
    },
    Row {
        words: &["pool", "1"],
        script: "ask/poll 0 1/ask/poll 2 2/drain/end 2/end 2/back 1",
        text: "made/lease 0 0/made/pending/done wake 2/done/unknown/done/done 8",
        status: Status::Done,
    },
    // It has got its lease.
    Row {
        words: &["pool", "1"],
        script: "ask/poll 0 1/poll 0 2/use 0 3/back 0/end 0",
        text: "made/lease 0 0/unknown/unknown/unknown/unknown/done 6",
        status: Status::Done,
    },
    // It was refused.
    Row {
        words: &["pool", "1"],
        script: "drain/ask/poll 1 1/poll 1 2/use 1 3/back 1/end 1",
        text: "done/made/gone/unknown/unknown/unknown/unknown/done 7",
        status: Status::Done,
    },
];

// The same of a lease.
const LEASES: &[Row] = &[
    // It is out.
    Row {
        words: &["pool", "1"],
        script: "ask/poll 0 1/poll 1 2/end 1/use 1 3/use 1 4/back 1/ask/poll 7 1",
        text: "made/lease 0 0/unknown/unknown/done/done/done/made/lease 0 4/done 9",
        status: Status::Done,
    },
    // It was put back.
    Row {
        words: &["pool", "1"],
        script: "ask/poll 0 1/back 1/poll 1 2/end 1/use 1 3/back 1",
        text: "made/lease 0 0/done/unknown/unknown/unknown/unknown/done 7",
        status: Status::Done,
    },
];

// The same of a wait for the end of the drain.
const DRAIN_WAITS: &[Row] = &[
    // It was never polled.
    Row {
        words: &["pool", "1"],
        script: "wait/use 0 1/back 0/end 0/end 0",
        text: "made/unknown/unknown/done/unknown/done 5",
        status: Status::Done,
    },
    Row {
        words: &["pool", "1"],
        script: "wait/drain/poll 0 1",
        text: "made/done/ready/done 3",
        status: Status::Done,
    },
    // It waits.
    Row {
        words: &["pool", "1"],
        script: "wait/poll 0 1/use 0 1/back 0/poll 0 2/end 0/end 0/drain",
        text: "made/pending/unknown/unknown/pending/done/unknown/done/done 8",
        status: Status::Done,
    },
    // It was told.
    Row {
        words: &["pool", "1"],
        script: "wait/poll 0 1/drain/use 0 1/back 0/poll 0 2/poll 0 3",
        text: "made/pending/done wake 1/unknown/unknown/ready/unknown/done 7",
        status: Status::Done,
    },
    Row {
        words: &["pool", "1"],
        script: "wait/poll 0 1/drain/end 0/end 0",
        text: "made/pending/done wake 1/done/unknown/done 5",
        status: Status::Done,
    },
    // It was ready.
    Row {
        words: &["pool", "1"],
        script: "drain/wait/poll 1 1/poll 1 2/use 1 1/back 1/end 1",
        text: "done/made/ready/unknown/unknown/unknown/unknown/done 7",
        status: Status::Done,
    },
];

// Every call of a pool in each of its states.
const POOLS: &[Row] = &[
    // All is idle.
    Row {
        words: &["pool", "2"],
        script: "idle/ask/poll 1 5/wait/poll 3 6/use 2 9/back 2/drain/idle",
        text: "count 2/made/lease 0 0/made/pending/done/done/done wake 6/count 2/done 9",
        status: Status::Done,
    },
    // All is lent.
    Row {
        words: &["pool", "1"],
        script: "ask/poll 0 1/idle/ask/poll 3 2/wait/poll 5 3/use 1 9/back 1/idle/poll 3 4",
        text: "made/lease 0 0/count 0/made/pending/made/pending/done/done wake 2/count 1/lease 0 9/done 11",
        status: Status::Done,
    },
    // A wait is granted.
    Row {
        words: &["pool", "1"],
        script: "ask/poll 0 1/ask/poll 2 2/back 1/idle/ask/poll 6 3/wait/poll 8 4/drain/idle",
        text: "made/lease 0 0/made/pending/done wake 2/count 1/made/pending/made/pending/done wake 3/count 1/done 12",
        status: Status::Done,
    },
    // It drains, and a lease is out.
    Row {
        words: &["pool", "1"],
        script: "ask/poll 0 1/drain/idle/drain/ask/poll 5 2/wait/poll 7 3/use 1 7/back 1/idle",
        text: "made/lease 0 0/done/count 0/done/made/gone/made/pending/done/done wake 3/count 1/done 12",
        status: Status::Done,
    },
    // It drains, and a wait is granted.
    Row {
        words: &["pool", "1"],
        script: "ask/poll 0 1/ask/poll 2 2/back 1/drain/idle/ask/poll 7 3/wait/poll 9 4/drain/poll 2 5/back 12/idle",
        text: "made/lease 0 0/made/pending/done wake 2/done/count 1/made/gone/made/pending/done/lease 0 0/done wake 4/count 1/done 15",
        status: Status::Done,
    },
    // It is drained.
    Row {
        words: &["pool", "1"],
        script: "drain/idle/ask/poll 2 1/wait/poll 4 2/drain/use 0 1/back 0/end 0/idle",
        text: "done/count 1/made/gone/made/ready/done/unknown/unknown/unknown/count 1/done 11",
        status: Status::Done,
    },
];

#[test]
fn waits_in_each_state(rt: HostRuntime) {
    check_rows::<Pools>(&rt, WAITS);
}

#[test]
fn leases_in_each_state(rt: HostRuntime) {
    check_rows::<Pools>(&rt, LEASES);
}

#[test]
fn drain_waits_in_each_state(rt: HostRuntime) {
    check_rows::<Pools>(&rt, DRAIN_WAITS);
}

#[test]
fn pools_in_each_state(rt: HostRuntime) {
    check_rows::<Pools>(&rt, POOLS);
}
