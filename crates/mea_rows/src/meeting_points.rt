use crate::rows::{Row, check_rows};
use mea_family::Stop;
use mea_run::Status;

const ROWS: &[Row] = &[
    // The last arrival of a round leads and wakes the others; a barrier of 0 counts as one of 1.
    Row {
        script: "bar.new 2/bar.wait 0/bar.poll 1 5/bar.end 1/bar.wait 0/bar.poll 4 6/bar.new 0/bar.wait 6/bar.poll 7 8",
        text: "made/made/pending/done/made/leader wake 5/made/made/leader/done 9",
        status: Status::Done,
    },
    // A latch falls to 0 and not below.
    Row {
        script: "lat.new 10/lat.arrive 0 3/lat.arrive 0 3/lat.arrive 0 3/lat.try 0/lat.arrive 0 3/lat.count 0/lat.try 0",
        text: "made/done/done/done/left 1/done/count 0/ok/done 8",
        status: Status::Done,
    },
    // The last handle of a group wakes who waits.
    Row {
        script: "wg.new/wg.clone 0/wg.into 0/wg.poll 2 5/wg.end 1/wg.poll 2 6",
        text: "made/made/made/pending/done wake 5/ready/done 6",
        status: Status::Done,
    },
    // The signal of a shutdown, and the end of its receivers.
    Row {
        script: "sd.new/sd.now 0/sd.signal 0/sd.now 0/sd.await 0/sd.poll 4 7/sd.endr 0/sd.poll 4 8",
        text: "made/no/done/yes/made/pending/done wake 7/ready/done 8",
        status: Status::Done,
    },
    // The end of the last sender of a shutdown sets no signal.
    Row {
        script: "sd.new/sd.is 0/sd.poll 1 5/sd.ends 0/sd.now 0/sd.signal 0",
        text: "made/made/pending/done/no/stop 5 unknown",
        status: Status::Stopped {
            at: 5,
            cause: Stop::Unknown,
        },
    },
    // A handle that becomes a wait wakes who waits, where it was the last.
    Row {
        script: "wg.new/wg.clone 0/wg.into 1/wg.poll 2 5/wg.into 0/wg.poll 4 6/wg.poll 2 7",
        text: "made/made/made/pending/made wake 5/ready/ready/done 7",
        status: Status::Done,
    },
    // A latch whose name has ended serves its owned futures.
    Row {
        script: "lat.new 1/lat.waito 0/lat.poll 1 5/lat.drop 0/lat.poll 1 6/lat.end 1/lat.count 0",
        text: "made/made/pending/done/pending/done/stop 6 unknown",
        status: Status::Stopped {
            at: 6,
            cause: Stop::Unknown,
        },
    },
    // Semaphores, a latch and a shutdown in one script: each keeps its own, and wakes keep their order.
    Row {
        script: "new 0/acq 0 1/poll 1 11/lat.new 1/lat.wait 3/lat.poll 4 12/sd.new/sd.is 6/sd.poll 7 13/lat.down 3/release 0 1/sd.signal 6/poll 1 14/lat.poll 4 15/sd.poll 7 16/bar.new 2/bar.wait 15/bar.poll 16 17/bar.wait 15/bar.poll 18 18/ledger 0",
        text: "made/made/pending/made/made/pending/made/made/pending/done wake 12/done wake 11/done wake 13/ready/ready/ready/made/made/pending/made/leader wake 17/ledger 0 1 0 0 1 0 0/done 21",
        status: Status::Done,
    },
];

#[test]
fn meeting_points(rt: HostRuntime) {
    check_rows(&rt, ROWS);
}

// Each future is ended when it is new, when it is pending, when it could be ready, and after two polls with
// different wakers.
const ENDS: &[Row] = &[
    Row {
        script: "bar.new 2/bar.wait 0/bar.end 1/bar.wait 0/bar.poll 3 5/bar.end 3/bar.wait 0/bar.poll 6 6/bar.wait 0/bar.poll 8 7/bar.poll 8 8/bar.wait 0/bar.poll 11 9/bar.end 8/bar.end 8",
        text: "made/made/done/made/pending/done/made/leader wake 5/made/pending/pending/made/leader wake 8/done/stop 14 unknown",
        status: Status::Stopped {
            at: 14,
            cause: Stop::Unknown,
        },
    },
    Row {
        script: "lat.new 1/lat.wait 0/lat.end 1/lat.waito 0/lat.poll 3 5/lat.end 3/lat.wait 0/lat.poll 6 6/lat.poll 6 7/lat.down 0/lat.end 6/lat.drop 0/lat.drop 0",
        text: "made/made/done/made/pending/done/made/pending/pending/done wake 5 7/done/done/stop 12 unknown",
        status: Status::Stopped {
            at: 12,
            cause: Stop::Unknown,
        },
    },
    Row {
        script: "wg.new/wg.clone 0/wg.into 0/wg.end 2/wg.clone 1/wg.into 4/wg.poll 5 6/wg.copy 5/wg.end 5/wg.poll 7 8/wg.poll 7 9/wg.copy 7/wg.end 1/wg.end 7/wg.poll 11 3/wg.copy 11",
        text: "made/made/made/done/made/made/pending/made/done/pending/pending/made/done wake 6 9/done/ready/stop 15 unknown",
        status: Status::Stopped {
            at: 15,
            cause: Stop::Unknown,
        },
    },
    Row {
        script: "sd.new/sd.is 0/sd.end 1/sd.iso 0/sd.poll 3 5/sd.end 3/sd.is 0/sd.poll 6 6/sd.poll 6 7/sd.signal 0/sd.end 6/sd.await 0/sd.poll 11 8/sd.poll 11 9/sd.copyr 0/sd.endr 0/sd.endr 14/sd.end 11/sd.end 11",
        text: "made/made/done/made/pending/done/made/pending/pending/done wake 5 7/done/made/pending/pending/made/done/done wake 9/done/stop 18 unknown",
        status: Status::Stopped {
            at: 18,
            cause: Stop::Unknown,
        },
    },
];

#[test]
fn ends(rt: HostRuntime) {
    check_rows(&rt, ENDS);
}

// Why lines are refused: what is borrowed by a plain future, a watch that is no receiver, a count that does
// not fit.
const REFUSALS: &[Row] = &[
    Row {
        script: "bar.new 2/bar.wait 0/bar.drop 0",
        text: "made/made/stop 2 borrowed",
        status: Status::Stopped {
            at: 2,
            cause: Stop::Borrowed,
        },
    },
    Row {
        script: "bar.new 2/bar.wait 0/bar.end 1/bar.drop 0/bar.wait 0",
        text: "made/made/done/done/stop 4 unknown",
        status: Status::Stopped {
            at: 4,
            cause: Stop::Unknown,
        },
    },
    Row {
        script: "lat.new 2/lat.wait 0/lat.drop 0",
        text: "made/made/stop 2 borrowed",
        status: Status::Stopped {
            at: 2,
            cause: Stop::Borrowed,
        },
    },
    Row {
        script: "sd.new/sd.watch 0/sd.is 1/sd.endr 1",
        text: "made/made/made/stop 3 borrowed",
        status: Status::Stopped {
            at: 3,
            cause: Stop::Borrowed,
        },
    },
    Row {
        script: "sd.new/sd.watch 0/sd.watch 1",
        text: "made/made/stop 2 unknown",
        status: Status::Stopped {
            at: 2,
            cause: Stop::Unknown,
        },
    },
    Row {
        script: "bar.new 2/lat.wait 0",
        text: "made/stop 1 unknown",
        status: Status::Stopped {
            at: 1,
            cause: Stop::Unknown,
        },
    },
    Row {
        script: "lat.new 4294967296",
        text: "bad 0",
        status: Status::BadLine { at: 0 },
    },
    Row {
        script: "lat.new 4294967295/lat.arrive 99 4294967296",
        text: "made/bad 1",
        status: Status::BadLine { at: 1 },
    },
    Row {
        script: "wg.new 1",
        text: "bad 0",
        status: Status::BadLine { at: 0 },
    },
];

#[test]
fn meeting_point_refusals(rt: HostRuntime) {
    check_rows(&rt, REFUSALS);
}
