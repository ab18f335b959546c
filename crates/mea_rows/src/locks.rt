use crate::rows::{Row, check_rows};
use mea_family::Stop;
use mea_run::Status;

const ROWS: &[Row] = &[
    // A write takes what is free as part payment, and becomes a read; a lock of no reader is none.
    Row {
        script: "rw.max 7 2/rw.tryr 0/rw.write 0/rw.poll 2 5/rw.tryr 0/rw.end 1/rw.poll 2 6/rw.set 6 9/rw.down 6/rw.tryr 0/rw.get 9/rw.max 0 0",
        text: "made/some/made/pending/none/done wake 5/ready/done/done/some/value 9/stop 11 zero",
        status: Status::Stopped {
            at: 11,
            cause: Stop::Zero,
        },
    },
    // A guard passes the lock on, and borrows it.
    Row {
        script: "mx.new 5/mx.try 0/mx.lock 0/mx.poll 2 9/mx.set 1 6/mx.end 1/mx.poll 2 9/mx.get 6/mx.peek 0",
        text: "made/some/made/pending/done/done wake 9/ready/value 6/stop 8 borrowed",
        status: Status::Stopped {
            at: 8,
            cause: Stop::Borrowed,
        },
    },
    // A mutex that was dropped serves its owned guard, and its name is gone.
    Row {
        script: "mx.new 1/mx.tryo 0/mx.drop 0/mx.get 1/mx.try 0",
        text: "made/some/done/value 1/stop 4 unknown",
        status: Status::Stopped {
            at: 4,
            cause: Stop::Unknown,
        },
    },
    // The whole mutex is written and read, and goes with its value.
    Row {
        script: "mx.new 5/mx.put 0 6/mx.peek 0/mx.into 0/mx.put 0 7",
        text: "made/done/value 6/value 6/stop 4 unknown",
        status: Status::Stopped {
            at: 4,
            cause: Stop::Unknown,
        },
    },
    // A lock that was dropped is gone.
    Row {
        script: "rw.new 1/rw.drop 0/rw.peek 0",
        text: "made/done/stop 2 unknown",
        status: Status::Stopped {
            at: 2,
            cause: Stop::Unknown,
        },
    },
    // An owned future of a dropped mutex takes the lock from an owned guard.
    Row {
        script: "mx.new 1/mx.tryo 0/mx.locko 0/mx.poll 2 5/mx.drop 0/mx.set 1 8/mx.end 1/mx.poll 2 6/mx.get 7/mx.end 7",
        text: "made/some/made/pending/done/done/done wake 5/ready/value 8/done/done 10",
        status: Status::Done,
    },
    // Reads wait behind a write, and have what it was paid where it is ended.
    Row {
        script: "rw.max 7 2/rw.tryr 0/rw.write 0/rw.poll 2 5/rw.read 0/rw.poll 4 6/rw.end 2/rw.poll 4 7/rw.get 7",
        text: "made/some/made/pending/made/pending/done wake 6/ready/value 7/done 9",
        status: Status::Done,
    },
    // A write that becomes a read lets in all reads that wait.
    Row {
        script: "rw.max 1 3/rw.tryw 0/rw.read 0/rw.poll 2 8/rw.read 0/rw.poll 4 9/rw.down 1/rw.poll 2 10/rw.tryr 0",
        text: "made/some/made/pending/made/pending/done wake 8 9/ready/none/done 9",
        status: Status::Done,
    },
    // A guard that reads may not write.
    Row {
        script: "rw.new 1/rw.tryr 0/rw.tryro 0/rw.get 2/rw.set 1 5",
        text: "made/some/some/value 1/stop 4 unknown",
        status: Status::Stopped {
            at: 4,
            cause: Stop::Unknown,
        },
    },
    // An owned guard borrows the whole lock as a plain one does.
    Row {
        script: "rw.new 4/rw.trywo 0/rw.put 0 5",
        text: "made/some/stop 2 borrowed",
        status: Status::Stopped {
            at: 2,
            cause: Stop::Borrowed,
        },
    },
    // The value of a lock that nobody uses is told, written and taken out.
    Row {
        script: "rw.new 4/rw.peek 0/rw.put 0 5/rw.into 0/rw.peek 0",
        text: "made/value 4/done/value 5/stop 4 unknown",
        status: Status::Stopped {
            at: 4,
            cause: Stop::Unknown,
        },
    },
];

#[test]
fn locks(rt: HostRuntime) {
    check_rows(&rt, ROWS);
}

// Each future is ended when it is new, when it is pending, when it could be ready, and after two polls with
// different wakers.
const ENDED: &[Row] = &[
    Row {
        script: "mx.new 5/mx.try 0/mx.lock 0/mx.end 2/mx.end 1/mx.peek 0",
        text: "made/some/made/done/done/value 5/done 6",
        status: Status::Done,
    },
    Row {
        script: "mx.new 5/mx.try 0/mx.lock 0/mx.poll 2 9/mx.end 2/mx.end 1/mx.try 0",
        text: "made/some/made/pending/done/done/some/done 7",
        status: Status::Done,
    },
    Row {
        script: "mx.new 5/mx.try 0/mx.lock 0/mx.poll 2 9/mx.lock 0/mx.poll 4 10/mx.end 1/mx.end 2/mx.poll 4 11",
        text: "made/some/made/pending/made/pending/done wake 9/done wake 10/ready/done 9",
        status: Status::Done,
    },
    Row {
        script: "mx.new 5/mx.try 0/mx.lock 0/mx.poll 2 9/mx.poll 2 10/mx.end 1/mx.end 2/mx.try 0",
        text: "made/some/made/pending/pending/done wake 10/done/some/done 8",
        status: Status::Done,
    },
    Row {
        script: "rw.max 5 2/rw.tryw 0/rw.read 0/rw.end 2/rw.write 0/rw.end 4/rw.end 1/rw.peek 0",
        text: "made/some/made/done/made/done/done/value 5/done 8",
        status: Status::Done,
    },
    Row {
        script: "rw.max 5 2/rw.tryw 0/rw.read 0/rw.poll 2 9/rw.write 0/rw.poll 4 10/rw.end 2/rw.end 4/rw.end 1/rw.tryw 0",
        text: "made/some/made/pending/made/pending/done/done/done/some/done 10",
        status: Status::Done,
    },
    Row {
        script: "rw.max 5 2/rw.tryw 0/rw.write 0/rw.poll 2 9/rw.read 0/rw.poll 4 10/rw.end 1/rw.end 2/rw.poll 4 11",
        text: "made/some/made/pending/made/pending/done wake 9/done wake 10/ready/done 9",
        status: Status::Done,
    },
    Row {
        script: "rw.max 5 2/rw.tryw 0/rw.write 0/rw.poll 2 9/rw.poll 2 10/rw.end 1/rw.end 2/rw.tryw 0",
        text: "made/some/made/pending/pending/done wake 10/done/some/done 8",
        status: Status::Done,
    },
];

#[test]
fn ended_lock_futures(rt: HostRuntime) {
    check_rows(&rt, ENDED);
}
