use crate::rows::{Row, check_rows};
use mea_family::Stop;
use mea_run::Status;

const ROWS: &[Row] = &[
    // Who is behind what is kept is told by how many, and goes on at the oldest.
    Row {
        script: "bc.new 2/bc.send 0 1/bc.send 0 2/bc.send 0 3/bc.send 0 4/bc.try 0/bc.try 0/bc.try 0/bc.try 0/bc.ends 0/bc.try 0",
        text: "made/done/done/done/done/lagged 2/got 3/got 4/empty/done/gone/done 11",
        status: Status::Done,
    },
    // A new receiver stands at the tail; no ring has more places than the greatest power of two.
    Row {
        script: "bc.new 2/bc.send 0 1/bc.send 0 2/bc.resub 0/bc.send 0 3/bc.try 0/bc.try 0/bc.try 3/bc.new 9223372036854775809",
        text: "made/done/done/made/done/lagged 1/got 2/got 3/stop 8 overflow",
        status: Status::Stopped {
            at: 8,
            cause: Stop::Overflow,
        },
    },
    // A future ends before its first poll, while it waits, once it was woken, and it is gone once it has its answer. The
    // waker of one that waited stays until the next message.
    Row {
        script: "bc.new 2/bc.recv 0/bc.end 1/bc.recv 0/bc.poll 3 5/bc.end 3/bc.send 0 7/bc.try 0/bc.recv 0/bc.poll 8 6/bc.send 0 8/bc.end 8/bc.try 0/bc.recv 0/bc.poll 13 1/bc.poll 13 2/bc.ends 0/bc.poll 13 3/bc.end 13",
        text: "made/made/done/made/pending/done/done wake 5/got 7/made/pending/done wake 6/done/got 8/made/pending/pending/done wake 2/gone/stop 18 unknown",
        status: Status::Stopped {
            at: 18,
            cause: Stop::Unknown,
        },
    },
    // A copy lags as its original does; one that subscribes hears what comes.
    Row {
        script: "bc.new 2/bc.send 0 1/bc.send 0 2/bc.copyr 0/bc.sub 0/bc.send 0 3/bc.try 3/bc.try 3/bc.try 4/bc.try 4/bc.resub 0/bc.try 10/bc.try 0/bc.try 0",
        text: "made/done/done/made/made/done/lagged 1/got 2/got 3/empty/made/empty/lagged 1/got 2/done 14",
        status: Status::Done,
    },
    // A poll lags, hears and waits.
    Row {
        script: "bc.new 1/bc.recv 0/bc.send 0 1/bc.send 0 2/bc.poll 1 9/bc.recv 0/bc.poll 5 9/bc.recv 0/bc.poll 7 9",
        text: "made/made/done/done/lagged 1/made/got 2/made/pending/done 9",
        status: Status::Done,
    },
    // All who wait are woken, in the order of their first polls; a further poll keeps its place.
    Row {
        script: "bc.new 4/bc.sub 0/bc.recv 1/bc.recv 0/bc.poll 2 20/bc.poll 3 30/bc.poll 2 21/bc.send 0 1",
        text: "made/made/made/made/pending/pending/pending/done wake 21 30/done 8",
        status: Status::Done,
    },
    // A channel without receivers still takes messages, and goes on as long as one of its senders does.
    Row {
        script: "bc.new 2/bc.endr 0/bc.send 0 5/bc.sub 0/bc.try 3/bc.send 0 6/bc.try 3/bc.copys 0/bc.ends 0/bc.try 3/bc.ends 7/bc.try 3/bc.endr 3/bc.try 3",
        text: "made/done/done/made/empty/done/got 6/made/done/empty/done/gone/done/stop 13 unknown",
        status: Status::Stopped {
            at: 13,
            cause: Stop::Unknown,
        },
    },
    // A future uses its receiver alone, and not the sender of that name.
    Row {
        script: "bc.new 2/bc.recv 0/bc.poll 1 5/bc.send 0 1/bc.try 0",
        text: "made/made/pending/done wake 5/stop 4 borrowed",
        status: Status::Stopped {
            at: 4,
            cause: Stop::Borrowed,
        },
    },
    Row {
        script: "bc.new 2/bc.recv 0/bc.endr 0",
        text: "made/made/stop 2 borrowed",
        status: Status::Stopped {
            at: 2,
            cause: Stop::Borrowed,
        },
    },
    Row {
        script: "bc.new 2/bc.recv 0/bc.copyr 0",
        text: "made/made/stop 2 borrowed",
        status: Status::Stopped {
            at: 2,
            cause: Stop::Borrowed,
        },
    },
    Row {
        script: "bc.new 0",
        text: "stop 0 zero",
        status: Status::Stopped {
            at: 0,
            cause: Stop::Zero,
        },
    },
];

#[test]
fn broadcast(rt: HostRuntime) {
    check_rows(&rt, ROWS);
}
