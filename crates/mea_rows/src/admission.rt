use crate::rows::{Row, check_rows};
use mea_family::Stop;
use mea_run::Status;

const ROWS: &[Row] = &[
    // The key that holds less goes first, though it waits shorter.
    Row {
        script: "fs.new 2/fs.try 0 1/fs.try 0 1/fs.acq 0 1/fs.poll 3 10/fs.acq 0 2/fs.poll 5 11/fs.end 1/fs.poll 5 12/fs.poll 3 13",
        text: "made/some/some/made/pending/made/pending/done wake 11/ready/pending/done 10",
        status: Status::Done,
    },
    // A key of weight 2 that holds one goes before one of weight 1 that holds one.
    Row {
        script: "fs.new 3/fs.weight 0 1 2/fs.try 0 1/fs.try 0 1/fs.try 0 2/fs.acq 0 2/fs.poll 5 11/fs.acq 0 1/fs.poll 7 10/fs.end 2/fs.poll 7 12/fs.end 3/fs.poll 5 13/fs.weightof 0 1/fs.weightof 0 9/fs.weight 0 3 0",
        text: "made/done/some/some/some/made/pending/made/pending/done wake 10/ready/done wake 11/ready/count 2/count 1/stop 15 zero",
        status: Status::Stopped {
            at: 15,
            cause: Stop::Zero,
        },
    },
    // Weights that are set while keys wait count from the next permit that comes back, and admit nobody.
    Row {
        script: "fs.new 3/fs.try 0 1/fs.try 0 2/fs.try 0 3/fs.acq 0 1/fs.poll 4 10/fs.acq 0 2/fs.poll 6 11/fs.weight 0 2 2/fs.end 3/fs.weight 0 1 4/fs.end 2/fs.poll 6 12/fs.poll 4 13/fs.weightof 0 1/fs.free 0",
        text: "made/some/some/some/made/pending/made/pending/done/done wake 11/done/done wake 10/ready/ready/count 4/free 0/done 16",
        status: Status::Done,
    },
    // A future that was never polled ends.
    Row {
        script: "fs.new 1/fs.acq 0 5/fs.end 1/fs.free 0",
        text: "made/made/done/free 1/done 4",
        status: Status::Done,
    },
    // One that waits leaves.
    Row {
        script: "fs.new 1/fs.try 0 1/fs.acq 0 2/fs.poll 2 7/fs.waiters 0/fs.end 2/fs.waiters 0/fs.end 1/fs.free 0",
        text: "made/some/made/pending/count 1/done/count 0/done/free 1/done 9",
        status: Status::Done,
    },
    // One that was admitted and not polled since gives its permit to the next.
    Row {
        script: "fs.new 1/fs.try 0 1/fs.acq 0 2/fs.poll 2 7/fs.acq 0 3/fs.poll 4 8/fs.end 1/fs.end 2/fs.poll 4 9/fs.key 8/fs.free 0",
        text: "made/some/made/pending/made/pending/done wake 7/done wake 8/ready/key 3/free 0/done 11",
        status: Status::Done,
    },
    // The last waker counts.
    Row {
        script: "fs.new 1/fs.try 0 1/fs.acqo 0 2/fs.poll 2 7/fs.poll 2 8/fs.end 1/fs.poll 2 9/fs.end 6/fs.free 0",
        text: "made/some/made/pending/pending/done wake 8/ready/done/free 1/done 9",
        status: Status::Done,
    },
    // A try takes nothing beside one that waits, and an admission without its name goes with its last permit.
    Row {
        script: "fs.new 1/fs.tryo 0 1/fs.try 0 2/fs.drop 0/fs.key 1/fs.end 1/fs.free 0",
        text: "made/some/none/done/key 1/done/stop 6 unknown",
        status: Status::Stopped {
            at: 6,
            cause: Stop::Unknown,
        },
    },
    Row {
        script: "fs.new 1/fs.acq 0 1/fs.drop 0",
        text: "made/made/stop 2 borrowed",
        status: Status::Stopped {
            at: 2,
            cause: Stop::Borrowed,
        },
    },
    Row {
        script: "fs.new 0",
        text: "stop 0 zero",
        status: Status::Stopped {
            at: 0,
            cause: Stop::Zero,
        },
    },
    Row {
        script: "fs.weight 5 1 0",
        text: "stop 0 unknown",
        status: Status::Stopped {
            at: 0,
            cause: Stop::Unknown,
        },
    },
];

#[test]
fn admission(rt: HostRuntime) {
    check_rows(&rt, ROWS);
}
