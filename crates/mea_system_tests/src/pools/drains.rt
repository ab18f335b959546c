use crate::programs::Pools;
use crate::rows::{Row, check_rows};
use mea_script::Status;

const DRAINS: &[Row] = &[
    // A wait that is polled before the drain is pending, and the drain wakes it where all is idle.
    // A second drain changes nothing.
    Row {
        words: &["pool", "2"],
        script: "wait/poll 0 1/drain/drain/poll 0 2",
        text: "made/pending/done wake 1/done/ready/done 5",
        status: Status::Done,
    },
    // A second drain changes nothing while a lease is out either.
    Row {
        words: &["pool", "1"],
        script: "ask/poll 0 1/wait/poll 2 2/drain/drain/poll 2 3/back 1/drain/poll 2 4",
        text: "made/lease 0 0/made/pending/done/done/pending/done wake 3/done/ready/done 10",
        status: Status::Done,
    },
    // Several wake in the order of their first pending polls, each with its last waker; a later poll keeps the place.
    Row {
        words: &["pool", "1"],
        script: "wait/wait/wait/ask/poll 3 9/poll 1 10/poll 0 11/poll 2 12/poll 1 13/drain/poll 0 14/back 4",
        text: "made/made/made/made/lease 0 0/pending/pending/pending/pending/done/pending/done wake 13 14 12/done 12",
        status: Status::Done,
    },
    // One that is ended leaves the list and is not woken.
    // All that were woken are ready, whatever the others do, and so is a new one.
    Row {
        words: &["pool", "1"],
        script: "wait/wait/wait/poll 0 1/poll 1 2/poll 2 3/end 1/drain/end 0/poll 2 4/wait/poll 10 6",
        text: "made/made/made/pending/pending/pending/done/done wake 1 3/done/ready/made/ready/done 12",
        status: Status::Done,
    },
    // The waits for a lease are woken in their order when the drain begins, and are refused at their next poll; so is a new one.
    Row {
        words: &["pool", "1"],
        script: "ask/poll 0 1/ask/ask/poll 3 2/poll 2 3/drain/poll 2 4/poll 3 5/ask/poll 9 6",
        text: "made/lease 0 0/made/made/pending/pending/done wake 2 3/gone/gone/made/gone/done 11",
        status: Status::Done,
    },
    // The drain wakes first those who wait for a lease; the last lease then wakes who waits for the end.
    Row {
        words: &["pool", "1"],
        script: "ask/poll 0 1/ask/poll 2 2/wait/poll 4 3/drain/back 1/poll 4 4/poll 2 5",
        text: "made/lease 0 0/made/pending/made/pending/done wake 2/done wake 3/ready/gone/done 10",
        status: Status::Done,
    },
];

#[test]
fn drains(rt: HostRuntime) {
    check_rows::<Pools>(&rt, DRAINS);
}
