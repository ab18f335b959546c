use crate::programs::Pools;
use crate::rows::{Row, check_rows};
use mea_script::Status;

const GRANTED: &[Row] = &[
    // A granted wait gets the first resource of the shelf when it is polled, not the one that was put back for it.
    Row {
        words: &["pool", "2"],
        script: "ask/poll 0 1/ask/poll 2 2/ask/poll 4 3/ask/poll 6 4/back 3/back 1/poll 6 5",
        text: "made/lease 0 0/made/lease 1 1/made/pending/made/pending/done wake 3/done wake 4/lease 1 1/done 11",
        status: Status::Done,
    },
    // It gets it also while draining.
    Row {
        words: &["pool", "1"],
        script: "ask/poll 0 1/ask/poll 2 2/back 1/drain/poll 2 3/back 6",
        text: "made/lease 0 0/made/pending/done wake 2/done/lease 0 0/done/done 8",
        status: Status::Done,
    },
    // A new wait beside a granted one that leaves nothing free is pending, though the shelf has a resource, which counts.
    Row {
        words: &["pool", "1"],
        script: "ask/poll 0 1/ask/poll 2 2/back 1/idle/ask/poll 6 3/idle/poll 2 4/back 9/poll 6 5",
        text: "made/lease 0 0/made/pending/done wake 2/count 1/made/pending/count 1/lease 0 0/done wake 3/lease 0 0/done 12",
        status: Status::Done,
    },
    // Where a place is free beside it, a new wait gets a lease.
    Row {
        words: &["pool", "2"],
        script: "ask/poll 0 1/ask/poll 2 2/ask/poll 4 3/back 1/back 3/idle/ask/poll 9 4/poll 4 5/idle",
        text: "made/lease 0 0/made/lease 1 1/made/pending/done wake 3/done/count 2/made/lease 0 0/lease 1 1/count 0/done 13",
        status: Status::Done,
    },
];

const ENDS: &[Row] = &[
    // The end of a granted wait wakes the next that waits ..
    Row {
        words: &["pool", "1"],
        script: "ask/poll 0 1/ask/poll 2 2/ask/poll 4 3/back 1/end 2/poll 4 6",
        text: "made/lease 0 0/made/pending/made/pending/done wake 2/done wake 3/lease 0 0/done 9",
        status: Status::Done,
    },
    // .. or, while draining, where nothing else is lent or granted, all who wait for the end.
    Row {
        words: &["pool", "1"],
        script: "ask/poll 0 1/ask/poll 2 2/wait/poll 4 3/wait/poll 6 4/back 1/drain/end 2/poll 6 5/poll 4 6",
        text: "made/lease 0 0/made/pending/made/pending/made/pending/done wake 2/done/done wake 3 4/ready/ready/done 13",
        status: Status::Done,
    },
    // Beside a lease it wakes nobody then: the lease does.
    Row {
        words: &["pool", "2"],
        script: "ask/poll 0 1/ask/poll 2 2/ask/poll 4 3/back 1/drain/wait/poll 8 4/end 4/back 3/poll 8 5",
        text: "made/lease 0 0/made/lease 1 1/made/pending/done wake 3/done/made/pending/done/done wake 4/ready/done 13",
        status: Status::Done,
    },
    // Beside another granted wait it wakes nobody either: that one does.
    Row {
        words: &["pool", "2"],
        script: "ask/poll 0 1/ask/poll 2 2/ask/poll 4 3/ask/poll 6 4/back 1/back 3/drain/wait/poll 11 5/end 4/end 6/poll 11 6",
        text: "made/lease 0 0/made/lease 1 1/made/pending/made/pending/done wake 3/done wake 4/done/made/pending/done/done wake 5/ready/done 16",
        status: Status::Done,
    },
    // The end of any other wait wakes nobody: of one that was never polled, that waits, that was cut.
    Row {
        words: &["pool", "1"],
        script: "ask/end 0/ask/poll 2 1/ask/poll 4 2/ask/poll 6 3/end 4/back 3/end 6/ask/poll 11 4/ask/poll 13 5/drain/end 13",
        text: "made/done/made/lease 0 0/made/pending/made/pending/done/done wake 3/done/made/lease 0 0/made/pending/done wake 5/done/done 17",
        status: Status::Done,
    },
];

const ORDER: &[Row] = &[
    // Places go in the order of first polls, not in that of the waits; a later poll keeps the place, with the new waker.
    Row {
        words: &["pool", "1"],
        script: "ask/poll 0 1/ask/ask/poll 3 2/poll 2 3/poll 3 4/back 1/poll 2 5/poll 3 6/back 9/poll 2 7",
        text: "made/lease 0 0/made/made/pending/pending/pending/done wake 4/pending/lease 0 0/done wake 5/lease 0 0/done 12",
        status: Status::Done,
    },
    // A resource comes back to the end of the shelf with the value that was set last.
    Row {
        words: &["pool", "3"],
        script: "ask/poll 0 1/use 1 7/use 1 18446744073709551615/back 1/idle/ask/poll 6 1/ask/poll 8 1/ask/poll 10 1",
        text: "made/lease 0 0/done/done/done/count 3/made/lease 1 1/made/lease 2 2/made/lease 0 18446744073709551615/done 12",
        status: Status::Done,
    },
];

const NAMES: &[Row] = &[
    // A wait is gone after its lease, which is named by that poll alone.
    Row {
        words: &["pool", "1"],
        script: "ask/poll 0 1/poll 0 1/end 0/back 0/use 0 3/use 1 3/back 1",
        text: "made/lease 0 0/unknown/unknown/unknown/unknown/done/done/done 8",
        status: Status::Done,
    },
    // A wait is gone after it was refused, and after its end.
    Row {
        words: &["pool", "1"],
        script: "ask/end 0/poll 0 1/end 0/drain/ask/poll 5 2/poll 5 3/end 5",
        text: "made/done/unknown/unknown/done/made/gone/unknown/unknown/done 9",
        status: Status::Done,
    },
    // A wait for the end is gone after it was ready, and after its end.
    Row {
        words: &["pool", "1"],
        script: "wait/wait/end 0/poll 0 1/end 0/drain/poll 1 2/poll 1 3/end 1",
        text: "made/made/done/unknown/unknown/done/ready/unknown/unknown/done 9",
        status: Status::Done,
    },
    // A name of another kind, and one that no line has, are unknown.
    Row {
        words: &["pool", "1"],
        script: "ask/wait/back 0/back 1/use 0 1/use 1 1/poll 2 1/end 2/back 99/poll 18446744073709551615 1/end 0/end 1",
        text: "made/made/unknown/unknown/unknown/unknown/unknown/unknown/unknown/unknown/done/done/done 12",
        status: Status::Done,
    },
    // Lines that make nothing count too.
    Row {
        words: &["pool", "1"],
        script: "idle/back 7/ask/poll 2 1/back 3",
        text: "count 1/unknown/made/lease 0 0/done/done 5",
        status: Status::Done,
    },
];

#[test]
fn granted_waits_get_a_lease(rt: HostRuntime) {
    check_rows::<Pools>(&rt, GRANTED);
}

#[test]
fn granted_waits_hand_on_what_they_leave(rt: HostRuntime) {
    check_rows::<Pools>(&rt, ENDS);
}

#[test]
fn leases_and_resources_keep_their_order(rt: HostRuntime) {
    check_rows::<Pools>(&rt, ORDER);
}

#[test]
fn names_are_those_of_living_things(rt: HostRuntime) {
    check_rows::<Pools>(&rt, NAMES);
}
