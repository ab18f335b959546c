use crate::rows::{Row, check_rows};
use mea_family::Stop;
use mea_run::Status;

const ROWS: &[Row] = &[
    // A wait that was notified by one and is ended while it asks for the lock passes that on.
    Row {
        script: "mx.new 0/cv.new/mx.try 0/cv.wait 1 2/cv.poll 3 10/mx.try 0/cv.wait 1 5/cv.poll 6 11/mx.try 0/cv.one 1/cv.poll 3 12/cv.end 3/mx.end 8/cv.poll 6 13/cv.one 1",
        text: "made/made/some/made/pending/some/made/pending/some/done wake 10/pending/done wake 11/done/ready/done/done 15",
        status: Status::Done,
    },
    // A wait for a value goes back to the list while the value is below it.
    Row {
        script: "mx.new 0/cv.new/mx.try 0/cv.waitw 1 2 3/cv.poll 3 10/mx.try 0/mx.set 5 2/mx.end 5/cv.one 1/cv.poll 3 11/mx.try 0/mx.set 10 3/mx.end 10/cv.all 1/cv.poll 3 12/mx.get 14",
        text: "made/made/some/made/pending/some/done/done/done wake 10/pending/some/done/done/done wake 11/ready/value 3/done 16",
        status: Status::Done,
    },
    // It goes back twice, and gives the lock to who waits for it.
    Row {
        script: "mx.new 0/cv.new/mx.tryo 0/cv.waitw 1 2 2/cv.poll 3 10/cv.one 1/cv.poll 3 11/mx.lock 0/cv.all 1/mx.try 0/mx.poll 7 20/cv.poll 3 12/mx.end 9/mx.poll 7 21/mx.set 13 2/mx.end 13/cv.poll 3 13/mx.get 16",
        text: "made/made/some/made/pending/done wake 10/pending/made/done wake 11/some/pending/pending/done wake 20/ready/done/done wake 12/ready/value 2/done 18",
        status: Status::Done,
    },
    // A wait whose value is there is ready at its first poll, and its guard has the number of that poll.
    Row {
        script: "mx.new 5/cv.new/mx.try 0/cv.waitw 1 2 5/mx.get 2/cv.poll 3 9",
        text: "made/made/some/made/stop 4 unknown",
        status: Status::Stopped {
            at: 4,
            cause: Stop::Unknown,
        },
    },
    Row {
        script: "mx.new 5/cv.new/mx.try 0/cv.waitw 1 2 5/cv.poll 3 9/mx.get 4/mx.end 4/cv.drop 1/mx.peek 0",
        text: "made/made/some/made/ready/value 5/done/done/value 5/done 9",
        status: Status::Done,
    },
    // A new wait that is ended gives the lock back; one that waits leaves the list.
    Row {
        script: "mx.new 0/cv.new/mx.try 0/mx.lock 0/mx.poll 3 7/cv.wait 1 2/cv.end 5/mx.poll 3 8/cv.wait 1 7/cv.poll 8 9/mx.peek 0",
        text: "made/made/some/made/pending/made/done wake 7/ready/made/pending/stop 10 borrowed",
        status: Status::Stopped {
            at: 10,
            cause: Stop::Borrowed,
        },
    },
    Row {
        script: "mx.new 0/cv.new/mx.try 0/cv.wait 1 2/cv.poll 3 4/cv.end 3/cv.one 1/cv.drop 1/mx.into 0",
        text: "made/made/some/made/pending/done/done/done/value 0/done 9",
        status: Status::Done,
    },
    // One notified by one that is ended before its next poll passes that on; one notified by all does not.
    Row {
        script: "mx.new 0/cv.new/mx.try 0/cv.wait 1 2/cv.poll 3 10/mx.try 0/cv.wait 1 5/cv.poll 6 11/cv.one 1/cv.end 3/cv.end 6/cv.one 1",
        text: "made/made/some/made/pending/some/made/pending/done wake 10/done wake 11/done/done/done 12",
        status: Status::Done,
    },
    Row {
        script: "mx.new 0/cv.new/mx.try 0/cv.wait 1 2/cv.poll 3 10/mx.try 0/cv.wait 1 5/cv.poll 6 11/cv.all 1/mx.try 0/cv.wait 1 9/cv.poll 10 12/cv.end 3",
        text: "made/made/some/made/pending/some/made/pending/done wake 10 11/some/made/pending/done/done 13",
        status: Status::Done,
    },
    // One notified by all that is ended while it asks for the lock gives that up, and notifies nobody.
    Row {
        script: "mx.new 0/cv.new/mx.try 0/cv.wait 1 2/cv.poll 3 10/mx.try 0/cv.wait 1 5/cv.poll 6 11/mx.try 0/cv.all 1/cv.poll 3 12/cv.poll 6 13/cv.wait 1 8/cv.poll 12 14/cv.end 3",
        text: "made/made/some/made/pending/some/made/pending/some/done wake 10 11/pending/pending/made/pending wake 12/done wake 13/done 15",
        status: Status::Done,
    },
    // One that was polled with two wakers has the second, and leaves the list with it.
    Row {
        script: "mx.new 0/cv.new/mx.try 0/cv.wait 1 2/cv.poll 3 4/cv.poll 3 5/cv.one 1",
        text: "made/made/some/made/pending/pending/done wake 5/done 7",
        status: Status::Done,
    },
    Row {
        script: "mx.new 0/cv.new/mx.try 0/cv.wait 1 2/cv.poll 3 4/cv.poll 3 5/cv.end 3/cv.all 1",
        text: "made/made/some/made/pending/pending/done/done/done 8",
        status: Status::Done,
    },
    // An end in the lock stage wakes who waits for the mutex before who waits to be notified.
    Row {
        script: "mx.new 0/cv.new/mx.try 0/cv.wait 1 2/cv.poll 3 10/mx.try 0/cv.wait 1 5/cv.poll 6 11/mx.try 0/cv.one 1/cv.poll 3 12/mx.lock 0/mx.poll 11 13/mx.end 8/cv.end 3",
        text: "made/made/some/made/pending/some/made/pending/some/done wake 10/pending/made/pending/done wake 12/done wake 13 11/done 15",
        status: Status::Done,
    },
    // The futures of a mutex are none of its waits, and the other way round.
    Row {
        script: "mx.new 0/cv.new/mx.try 0/cv.wait 1 2/mx.poll 3 5",
        text: "made/made/some/made/stop 4 unknown",
        status: Status::Stopped {
            at: 4,
            cause: Stop::Unknown,
        },
    },
    Row {
        script: "mx.new 0/cv.new/mx.try 0/cv.wait 1 2/cv.drop 1",
        text: "made/made/some/made/stop 4 borrowed",
        status: Status::Stopped {
            at: 4,
            cause: Stop::Borrowed,
        },
    },
    // An owned wait keeps a dropped mutex.
    Row {
        script: "mx.new 3/cv.new/mx.tryo 0/cv.wait 1 2/mx.drop 0/cv.poll 3 4/cv.all 1/cv.poll 3 5/mx.get 7/mx.end 7/mx.lock 0",
        text: "made/made/some/made/done/pending/done wake 4/ready/value 3/done/stop 10 unknown",
        status: Status::Stopped {
            at: 10,
            cause: Stop::Unknown,
        },
    },
];

#[test]
fn scripts_of_condition_variables(rt: HostRuntime) {
    check_rows(&rt, ROWS);
}
