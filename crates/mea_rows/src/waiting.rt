use crate::rows::{Row, check_rows};
use mea_run::Status;

const ROWS: &[Row] = &[
    // Ending a waiting acquire gives back what it was paid.
    Row {
        script: "new 3/acq 0 5/poll 1 10/acq 0 2/poll 3 11/release 0 1/end 1/free 0",
        text: "made/made/pending/made/pending/done/done wake 11/free 2/done 8",
        status: Status::Done,
    },
    // The same, up to the account.
    Row {
        script: "new 3/acq 0 5/poll 1 10/acq 0 2/poll 3 11/release 0 1/end 1/free 0/poll 3 12/ledger 0",
        text: "made/made/pending/made/pending/done/done wake 11/free 2/ready/ledger 3 1 0 2 2 0 0/done 10",
        status: Status::Done,
    },
    // A demand of 0 is ready at once, beside a waiter.
    Row {
        script: "new 0/acq 0 1/poll 1 5/acq 0 0/poll 3 6/size 4/end 4",
        text: "made/made/pending/made/ready/permits 0/done/done 7",
        status: Status::Done,
    },
    // The waker of the last poll is woken.
    Row {
        script: "new 0/acq 0 1/poll 1 5/poll 1 6/release 0 1/poll 1 7",
        text: "made/made/pending/pending/done wake 6/ready/done 6",
        status: Status::Done,
    },
    // Permits go from the head of the queue, one acquire at a time.
    Row {
        script: "new 0/acq 0 1/poll 1 5/acq 0 1/poll 3 6/release 0 1/end 1/free 0/end 3/free 0",
        text: "made/made/pending/made/pending/done wake 5/done wake 6/free 0/done/free 1/done 10",
        status: Status::Done,
    },
    // One end wakes two.
    Row {
        script: "new 2/try 0 2/acq 0 1/poll 2 5/acq 0 1/poll 4 6/end 1/end 4/end 2/free 0",
        text: "made/some/made/pending/made/pending/done wake 5 6/done/done/free 2/done 10",
        status: Status::Done,
    },
];

const POOL: &[Row] = &[
    // A pool of three connections and eight clients.
    Row {
        script: "new 3/acq 0 1/poll 1 101/acq 0 1/poll 3 102/acq 0 1/poll 5 103/acq 0 1/poll 7 104/acq 0 1/poll 9 105/acq 0 1/poll 11 106/acq 0 1/poll 13 107/acq 0 1/poll 15 108/free 0/end 9/end 2/poll 7 104/end 4/poll 11 106/free 0/end 6/poll 13 107/end 20/poll 15 108/try 0 1/end 22/free 0/end 25/end 27/free 0/try 0 3/split 34 1/size 34/merge 34 35/end 34/ledger 0",
        text: "made/made/ready/made/ready/made/ready/made/pending/made/pending/made/pending/made/pending/made/pending/free 0/done/done wake 104/ready/done wake 106/ready/free 0/done wake 107/ready/done wake 108/ready/none/done/free 1/done/done/free 3/some/some/permits 2/done/done/ledger 3 0 0 3 0 0 0/done 40",
        status: Status::Done,
    },
];

const CLOSED: &[Row] = &[
    // A close cuts all that wait, and what they were paid is free again but for a debt, which comes first.
    Row {
        script: "new 3/acq 0 5/poll 1 10/acq 0 2/poll 3 11/forgetx 0 1/close 0/free 0/poll 1 12/poll 3 13/try 0 1/acq 0 0/poll 11 14/closed 0/ledger 0",
        text: "made/made/pending/made/pending/done/done wake 10 11/free 2/gone/gone/none/made/gone/yes/ledger 3 0 0 2 0 0 1/done 15",
        status: Status::Done,
    },
    // A future that was granted before the close is ready; a second close does nothing.
    Row {
        script: "new 0/acq 0 1/poll 1 5/release 0 1/close 0/poll 1 6/end 5/free 0/close 0/acqf 0 1/end 9",
        text: "made/made/pending/done wake 5/done/ready/done/free 1/done/made/done/done 11",
        status: Status::Done,
    },
];

#[test]
fn acquires_wait(rt: HostRuntime) {
    check_rows(&rt, ROWS);
}

#[test]
fn a_pool_of_connections(rt: HostRuntime) {
    check_rows(&rt, POOL);
}

#[test]
fn a_closed_semaphore_gives_no_more(rt: HostRuntime) {
    check_rows(&rt, CLOSED);
}
