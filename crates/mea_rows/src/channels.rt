use crate::rows::{Row, check_rows};
use mea_family::Stop;
use mea_run::Status;

const ROWS: &[Row] = &[
    // A oneshot's receiver becomes a future, which stays when it has its message; a send to nobody comes back.
    Row {
        script: "os.new/os.into 0/os.poll 1 5/os.send 0 6/os.poll 1 7/os.poll 1 8/os.new/os.endr 6/os.send 6 3",
        text: "made/made/pending/ok wake 5/got 6/gone/made/done/closed 3/done 9",
        status: Status::Done,
    },
    // A box that may be empty.
    Row {
        script: "ao.new 1/ao.take 0/ao.swap 0 2/ao.take 0/ao.get 0",
        text: "made/value 1/none/value 2/none/done 5",
        status: Status::Done,
    },
    // Messages come in order, and what is queued when the receiver ends is gone.
    Row {
        script: "mu.new/mu.recv 0 4/mu.send 0 1/mu.send 0 2/mu.recv 0 5/mu.endr 0/mu.send 0 3",
        text: "made/pending/ok wake 4/ok/got 1/done/closed 3/done 7",
        status: Status::Done,
    },
    // The waker of an unbounded receiver outlives it.
    Row {
        script: "mu.new/mu.recv 0 10/mu.endr 0/mu.ends 0",
        text: "made/pending/done/done wake 10/done 4",
        status: Status::Done,
    },
    // That of a oneshot falls with its receiver.
    Row {
        script: "os.new/os.into 0/os.poll 1 5/os.end 1/os.ends 0/os.closed 0",
        text: "made/made/pending/done/done/stop 5 unknown",
        status: Status::Stopped {
            at: 5,
            cause: Stop::Unknown,
        },
    },
    // The last of many senders wakes the receiver, who then is told that no message will come.
    Row {
        script: "mu.new/mu.copy 0/mu.recv 0 7/mu.ends 0/mu.tryr 0/mu.ends 1/mu.recv 0 8/mu.endr 0/mu.tryr 0",
        text: "made/made/pending/done/empty/done wake 7/gone/done/stop 8 unknown",
        status: Status::Stopped {
            at: 8,
            cause: Stop::Unknown,
        },
    },
    // What the ends of a oneshot are told.
    Row {
        script: "os.new/os.closed 0/os.has 0/os.closedr 0/os.try 0/os.send 0 9/os.has 0/os.try 0/os.closedr 0/os.try 0",
        text: "made/no/no/no/empty/ok/yes/got 9/yes/gone/done 10",
        status: Status::Done,
    },
    // A receiver of a oneshot is not polled, and its future is not tried.
    Row {
        script: "os.new/os.into 0/os.try 0",
        text: "made/made/stop 2 unknown",
        status: Status::Stopped {
            at: 2,
            cause: Stop::Unknown,
        },
    },
    // A box always has a value, until it is taken out with it.
    Row {
        script: "ab.new 1/ab.swap 0 2/ab.store 0 3/ab.get 0/ab.into 0/ab.get 0",
        text: "made/value 1/done/value 3/value 3/stop 5 unknown",
        status: Status::Stopped {
            at: 5,
            cause: Stop::Unknown,
        },
    },
    Row {
        script: "ao.none/ao.store 0 4/ao.clear 0/ao.get 0/ao.store 0 5/ao.into 0/ao.new 1/ao.drop 6/ab.new 2/ab.drop 8",
        text: "made/done/done/none/done/value 5/made/done/made/done/done 10",
        status: Status::Done,
    },
    // A place that falls free goes to whoever polls first; a grant that finds it taken waits anew.
    Row {
        script: "mb.new 1/mb.send 0 7/mb.poll 1 20/mb.send 0 8/mb.poll 3 21/mb.send 0 9/mb.poll 5 22/mb.tryr 0/mb.try 0 10/mb.poll 3 23/mb.tryr 0/mb.poll 5 24/mb.tryr 0/mb.poll 3 25/mb.tryr 0/mb.tryr 0/mb.ends 0/mb.tryr 0",
        text: "made/made/ok/made/pending/made/pending/got 7 wake 21/ok/pending/got 10 wake 22/ok/got 9 wake 23/ok/got 8/empty/done/gone/done 18",
        status: Status::Done,
    },
    // A send ends before it was polled, while it waits, once it was granted a place, and with its answer.
    Row {
        script: "mb.new 1/mb.try 0 5/mb.send 0 6/mb.end 2/mb.send 0 7/mb.poll 4 20/mb.end 4/mb.send 0 8/mb.poll 7 21/mb.send 0 9/mb.poll 9 22/mb.tryr 0/mb.end 7/mb.poll 9 23/mb.end 9",
        text: "made/ok/made/done/made/pending/done/made/pending/made/pending/got 5 wake 21/done wake 22/ok/stop 14 unknown",
        status: Status::Stopped {
            at: 14,
            cause: Stop::Unknown,
        },
    },
    // The end of the receiver wakes all that wait, and each message comes back.
    Row {
        script: "mb.new 1/mb.try 0 5/mb.try 0 6/mb.send 0 7/mb.poll 3 20/mb.send 0 8/mb.poll 5 21/mb.endr 0/mb.poll 3 22/mb.poll 5 23/mb.try 0 9/mb.ends 0/mb.new 0",
        text: "made/ok/full 6/made/pending/made/pending/done wake 20 21/closed 7/closed 8/closed 9/done/stop 12 zero",
        status: Status::Stopped {
            at: 12,
            cause: Stop::Zero,
        },
    },
    // A sender that has a send does not end; the last one that does wakes the receiver.
    Row {
        script: "mb.new 2/mb.copy 0/mb.recv 0 30/mb.ends 0/mb.send 1 4/mb.poll 4 31/mb.recv 0 32/mb.recv 0 33/mb.ends 1/mb.recv 0 34/mb.endr 0",
        text: "made/made/pending/done/made/ok wake 30/got 4/pending/done wake 33/gone/done/done 11",
        status: Status::Done,
    },
    Row {
        script: "mb.new 1/mb.send 0 4/mb.ends 0",
        text: "made/made/stop 2 borrowed",
        status: Status::Stopped {
            at: 2,
            cause: Stop::Borrowed,
        },
    },
];

#[test]
fn channels(rt: HostRuntime) {
    check_rows(&rt, ROWS);
}
