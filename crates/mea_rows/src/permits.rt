use crate::rows::{Row, check_rows};
use mea_run::Status;

const ROWS: &[Row] = &[
    // A permit that is lost is gone.
    Row {
        script: "new 1/try 0 1/free 0/lose 1/free 0/try 0 1/ledger 0",
        text: "made/some/free 0/forgot 1/free 0/none/ledger 1 0 0 0 0 0 1/done 7",
        status: Status::Done,
    },
    // As many permits as there can be.
    Row {
        script: "new 0/release 0 18446744073709551615/free 0",
        text: "made/done/free 18446744073709551615/done 3",
        status: Status::Done,
    },
    // Permits that are forgotten as they are taken.
    Row {
        script: "new 2/tryf 0 1/tryof 0 2/acqf 0 2/poll 3 9/release 0 1/poll 3 9/ledger 0",
        text: "made/yes/no/made/pending/done wake 9/ready/ledger 2 1 0 0 0 0 3/done 8",
        status: Status::Done,
    },
    // Permits that are forgotten, split and counted.
    Row {
        script: "new 5/forget 0 9/forget 0 0/release 0 4/try 0 4/split 4 5/split 4 0/split 4 4/size 4",
        text: "made/forgot 5/forgot 0/done/some/none/some/some/permits 0/done 9",
        status: Status::Done,
    },
];

const DEBTS: &[Row] = &[
    // A debt is paid before all waiters.
    Row {
        script: "new 5/forgetx 0 3/acq 0 3/poll 2 7/forgetx 0 2/release 0 2/release 0 1/poll 2 8/end 7/free 0/ledger 0",
        text: "made/done/made/pending/done/done/done wake 7/ready/done/free 3/ledger 5 3 0 3 0 0 5/done 11",
        status: Status::Done,
    },
];

#[test]
fn permits_are_counted(rt: HostRuntime) {
    check_rows(&rt, ROWS);
}

#[test]
fn debts_come_first(rt: HostRuntime) {
    check_rows(&rt, DEBTS);
}
