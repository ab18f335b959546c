use crate::rows::{Row, check_rows};
use mea_family::Stop;
use mea_run::Status;

const ROWS: &[Row] = &[
    // The waits are woken in the order of their polls, then the next caller; who polls then finds it complete.
    Row {
        script: "on.new/on.done 0/on.call 0/on.wait 0/on.wait 0/on.poll 2 10/on.poll 4 20/on.poll 3 21/on.call 0/on.poll 8 30/on.settle 2/on.poll 2 11/on.done 0/on.poll 3 22/on.poll 8 31/on.end 4/on.settle 2",
        text: "made/no/made/made/made/pending/pending/pending/made/pending/done wake 10/ready wake 20 21 30/yes/ready/ready/done/stop 16 unknown",
        status: Status::Stopped {
            at: 16,
            cause: Stop::Unknown,
        },
    },
    // A wait has no initialiser.
    Row {
        script: "on.new/on.wait 0/on.settle 1",
        text: "made/made/stop 2 unknown",
        status: Status::Stopped {
            at: 2,
            cause: Stop::Unknown,
        },
    },
    // An initialiser is settled once; before its first poll that wakes nobody.
    Row {
        script: "on.new/on.call 0/on.settle 1/on.settle 1",
        text: "made/made/done/stop 3 unknown",
        status: Status::Stopped {
            at: 3,
            cause: Stop::Unknown,
        },
    },
    Row {
        script: "on.new/on.call 0/on.settle 1/on.poll 1 5/on.done 0",
        text: "made/made/done/ready/yes/done 5",
        status: Status::Done,
    },
    // A call that runs once has its futures while it lives.
    Row {
        script: "on.new/on.wait 0/on.drop 0",
        text: "made/made/stop 2 borrowed",
        status: Status::Stopped {
            at: 2,
            cause: Stop::Borrowed,
        },
    },
    // An initialiser fails, and the next caller puts its value in.
    Row {
        script: "oc.new/oc.init 0/oc.poll 1 40/oc.set 0 9/oc.poll 3 41/oc.fail 1 4/oc.poll 1 42/oc.poll 3 43/oc.get 0/oc.set 0 3/oc.poll 9 44",
        text: "made/made/pending/made/pending/done wake 40/err 4 wake 41/ok/value 9/made/back 3/done 11",
        status: Status::Done,
    },
    // Each caller hands the turn to the next.
    Row {
        script: "oc.new/oc.init 0/oc.poll 1 10/oc.init 0/oc.poll 3 11/oc.init 0/oc.poll 5 12/oc.settle 1 7/oc.poll 1 13/oc.poll 3 14/oc.poll 5 15",
        text: "made/made/pending/made/pending/made/pending/done wake 10/value 7 wake 11/value 7 wake 12/value 7/done 11",
        status: Status::Done,
    },
    // A value that is given where the cell is full has no effect.
    Row {
        script: "oc.new/oc.init 0/oc.poll 1 5/oc.init 0/oc.poll 3 6/oc.settle 1 1/oc.poll 1 7/oc.settle 3 2/oc.poll 3 8/oc.get 0",
        text: "made/made/pending/made/pending/done wake 5/value 1 wake 6/done/value 1/value 1/done 10",
        status: Status::Done,
    },
    // What uses a cell alone is alone.
    Row {
        script: "oc.new/oc.init 0/oc.minit 0",
        text: "made/made/stop 2 borrowed",
        status: Status::Stopped {
            at: 2,
            cause: Stop::Borrowed,
        },
    },
    Row {
        script: "oc.new/oc.minit 0/oc.get 0",
        text: "made/made/stop 2 borrowed",
        status: Status::Stopped {
            at: 2,
            cause: Stop::Borrowed,
        },
    },
    // It is woken by the waker of its last poll; then who has the cell tells, writes and takes out its value.
    Row {
        script: "oc.new/oc.minit 0/oc.poll 1 5/oc.poll 1 6/oc.settle 1 7/oc.poll 1 8/oc.peek 0/oc.put 0 9/oc.take 0/oc.put 0 1/oc.into 0/oc.get 0",
        text: "made/made/pending/pending/done wake 6/value 7/value 7/done/value 9/none/none/stop 11 unknown",
        status: Status::Stopped {
            at: 11,
            cause: Stop::Unknown,
        },
    },
    // It fails.
    Row {
        script: "oc.new/oc.minit 0/oc.fail 1 3/oc.poll 1 5/oc.drop 0/oc.get 0",
        text: "made/made/done/err 3/done/stop 5 unknown",
        status: Status::Stopped {
            at: 5,
            cause: Stop::Unknown,
        },
    },
    // A value that is there is told beside that which was given.
    Row {
        script: "oc.from 4/oc.ins 0 5/oc.poll 1 6/oc.put 0 8/oc.into 0",
        text: "made/made/held 4 5/done/value 8/done 5",
        status: Status::Done,
    },
    Row {
        script: "oc.new/oc.ins 0 5/oc.poll 1 6/oc.get 0",
        text: "made/made/value 5/value 5/done 4",
        status: Status::Done,
    },
    // Who has a future does not have the cell alone.
    Row {
        script: "oc.from 4/oc.init 0/oc.take 0",
        text: "made/made/stop 2 borrowed",
        status: Status::Stopped {
            at: 2,
            cause: Stop::Borrowed,
        },
    },
    Row {
        script: "oc.new/oc.set 0 1/oc.drop 0",
        text: "made/made/stop 2 borrowed",
        status: Status::Stopped {
            at: 2,
            cause: Stop::Borrowed,
        },
    },
    // A value that is put in has no initialiser.
    Row {
        script: "oc.new/oc.ins 0 1/oc.settle 1 2",
        text: "made/made/stop 2 unknown",
        status: Status::Stopped {
            at: 2,
            cause: Stop::Unknown,
        },
    },
];

#[test]
fn once_lines(rt: HostRuntime) {
    check_rows(&rt, ROWS);
}

// Each future is ended when it is new, when it is pending, when it could be ready, and after two polls with
// different wakers.
const ENDED: &[Row] = &[
    Row {
        script: "on.new/on.call 0/on.end 1/on.poll 1 3",
        text: "made/made/done/stop 3 unknown",
        status: Status::Stopped {
            at: 3,
            cause: Stop::Unknown,
        },
    },
    Row {
        script: "on.new/on.call 0/on.poll 1 5/on.call 0/on.poll 3 6/on.end 1/on.poll 3 7/on.settle 3/on.poll 3 8",
        text: "made/made/pending/made/pending/done wake 6/pending/done wake 7/ready/done 9",
        status: Status::Done,
    },
    Row {
        script: "on.new/on.call 0/on.poll 1 5/on.call 0/on.poll 3 6/on.settle 1/on.end 1/on.poll 3 7",
        text: "made/made/pending/made/pending/done wake 5/done wake 6/pending/done 8",
        status: Status::Done,
    },
    Row {
        script: "on.new/on.call 0/on.poll 1 5/on.poll 1 6/on.settle 1/on.end 1/on.done 0",
        text: "made/made/pending/pending/done wake 6/done/no/done 7",
        status: Status::Done,
    },
    Row {
        script: "on.new/on.call 0/on.poll 1 5/on.call 0/on.poll 3 6/on.call 0/on.poll 5 7/on.end 1/on.end 3/on.poll 5 8",
        text: "made/made/pending/made/pending/made/pending/done wake 6/done wake 7/pending/done 10",
        status: Status::Done,
    },
    // The waker of a wait outlives it.
    Row {
        script: "on.new/on.wait 0/on.end 1/on.wait 0/on.poll 3 9/on.end 3/on.call 0/on.settle 6/on.poll 6 5",
        text: "made/made/done/made/pending/done/made/done/ready wake 9/done 9",
        status: Status::Done,
    },
    Row {
        script: "on.new/on.wait 0/on.poll 1 9/on.poll 1 10/on.call 0/on.settle 4/on.poll 4 5/on.end 1",
        text: "made/made/pending/pending/made/done/ready wake 10/done/done 8",
        status: Status::Done,
    },
    Row {
        script: "oc.new/oc.init 0/oc.end 1/oc.peek 0",
        text: "made/made/done/none/done 4",
        status: Status::Done,
    },
    Row {
        script: "oc.new/oc.init 0/oc.poll 1 5/oc.set 0 2/oc.poll 3 6/oc.end 3/oc.end 1/oc.ins 0 3/oc.poll 7 8",
        text: "made/made/pending/made/pending/done/done/made/value 3/done 9",
        status: Status::Done,
    },
    Row {
        script: "oc.new/oc.init 0/oc.poll 1 5/oc.set 0 2/oc.poll 3 6/oc.poll 3 7/oc.end 1/oc.end 3/oc.get 0",
        text: "made/made/pending/made/pending/pending/done wake 7/done/none/done 9",
        status: Status::Done,
    },
    Row {
        script: "oc.new/oc.init 0/oc.poll 1 5/oc.poll 1 6/oc.settle 1 4/oc.end 1/oc.get 0",
        text: "made/made/pending/pending/done wake 6/done/none/done 7",
        status: Status::Done,
    },
    Row {
        script: "oc.new/oc.minit 0/oc.end 1/oc.minit 0/oc.poll 3 5/oc.poll 3 6/oc.end 3/oc.peek 0",
        text: "made/made/done/made/pending/pending/done/none/done 8",
        status: Status::Done,
    },
    Row {
        script: "oc.new/oc.minit 0/oc.poll 1 5/oc.settle 1 3/oc.end 1/oc.peek 0",
        text: "made/made/pending/done wake 5/done/none/done 6",
        status: Status::Done,
    },
    Row {
        script: "oc.new/oc.ins 0 3/oc.end 1/oc.set 0 4/oc.end 3/oc.peek 0",
        text: "made/made/done/made/done/none/done 6",
        status: Status::Done,
    },
];

#[test]
fn ended_once_futures(rt: HostRuntime) {
    check_rows(&rt, ENDED);
}
