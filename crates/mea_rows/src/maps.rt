use crate::rows::{Row, check_rows};
use mea_family::Stop;
use mea_run::Status;

const ROWS: &[Row] = &[
    // An entry that is taken out stays for its callers.
    Row {
        script: "om.new/om.compute 0 5/om.poll 1 30/om.compute 0 5/om.poll 3 31/om.remove 0 5/om.settle 1 77/om.poll 1 32/om.poll 3 33/om.get 0 5",
        text: "made/made/pending/made/pending/none/done wake 30/value 77 wake 31/value 77/none/done 10",
        status: Status::Done,
    },
    // The next call after a key was forgotten computes anew.
    Row {
        script: "sf.new/sf.work 0 5/sf.poll 1 30/sf.work 0 5/sf.poll 3 31/sf.forget 0 5/sf.work 0 5/sf.poll 6 32/sf.settle 1 70/sf.poll 1 33/sf.poll 3 34/sf.settle 6 71/sf.poll 6 35",
        text: "made/made/pending/made/pending/done/made/pending/done wake 30/value 70 wake 31/value 70/done wake 32/value 71/done 13",
        status: Status::Done,
    },
    // A map keeps a value, which a first poll finds; who settled before its first poll is ready at once.
    Row {
        script: "om.new/om.compute 0 5/om.settle 1 7/om.poll 1 10/om.get 0 5/om.compute 0 5/om.poll 5 11/om.discard 0 5/om.get 0 5/om.drop 0",
        text: "made/made/done/value 7/value 7/made/value 7/done/none/done/done 10",
        status: Status::Done,
    },
    // An error goes to its caller alone, and the next computes.
    Row {
        script: "om.new/om.compute 0 5/om.compute 0 5/om.poll 1 10/om.poll 2 11/om.fail 1 4/om.poll 1 12/om.poll 2 13/om.settle 2 8/om.poll 2 14/om.get 0 5/om.remove 0 5/om.get 0 5",
        text: "made/made/made/pending/pending/done wake 10/err 4 wake 11/pending/done wake 13/value 8/value 8/value 8/none/done 13",
        status: Status::Done,
    },
    // The end of who computes hands the turn to the next.
    Row {
        script: "om.new/om.compute 0 5/om.poll 1 10/om.compute 0 5/om.poll 3 11/om.end 1/om.poll 3 12/om.settle 3 6/om.poll 3 13/om.get 0 5",
        text: "made/made/pending/made/pending/done wake 11/pending/done wake 12/value 6/value 6/done 10",
        status: Status::Done,
    },
    // The last caller of an empty entry takes it out.
    Row {
        script: "om.new/om.compute 0 5/om.poll 1 10/om.end 1/om.get 0 5/om.compute 0 5/om.poll 5 11/om.poll 5 12/om.settle 5 9/om.poll 5 13",
        text: "made/made/pending/done/none/made/pending/pending/done wake 12/value 9/done 10",
        status: Status::Done,
    },
    // A caller that waits may end, and a key may be taken out under its callers.
    Row {
        script: "om.new/om.compute 0 5/om.poll 1 10/om.compute 0 5/om.poll 3 11/om.compute 0 5/om.poll 5 12/om.end 3/om.discard 0 5/om.end 1/om.settle 5 2/om.poll 5 13/om.get 0 5",
        text: "made/made/pending/made/pending/made/pending/done/done/done wake 12/done/value 2/none/done 13",
        status: Status::Done,
    },
    // What callers of a key that was taken out compute is no value of the key.
    Row {
        script: "om.new/om.compute 0 5/om.poll 1 10/om.discard 0 5/om.compute 0 5/om.poll 4 11/om.settle 4 1/om.poll 4 12/om.settle 1 2/om.poll 1 13/om.get 0 5",
        text: "made/made/pending/done/made/pending/done wake 11/value 1/done wake 10/value 2/value 1/done 11",
        status: Status::Done,
    },
    // Keys know nothing of each other.
    Row {
        script: "om.new/om.compute 0 5/om.compute 0 6/om.poll 1 10/om.poll 2 11/om.settle 2 3/om.poll 2 12/om.get 0 5/om.get 0 6",
        text: "made/made/made/pending/pending/done wake 11/value 3/none/value 3/done 9",
        status: Status::Done,
    },
    // A map has its futures while it lives.
    Row {
        script: "om.new/om.compute 0 5/om.drop 0",
        text: "made/made/stop 2 borrowed",
        status: Status::Stopped {
            at: 2,
            cause: Stop::Borrowed,
        },
    },
    // An initialiser is settled once.
    Row {
        script: "om.new/om.compute 0 5/om.settle 1 2/om.fail 1 3",
        text: "made/made/done/stop 3 unknown",
        status: Status::Stopped {
            at: 3,
            cause: Stop::Unknown,
        },
    },
    // A group is no map.
    Row {
        script: "om.new/sf.work 0 5",
        text: "made/stop 1 unknown",
        status: Status::Stopped {
            at: 1,
            cause: Stop::Unknown,
        },
    },
    // A group keeps no value.
    Row {
        script: "sf.new/sf.work 0 5/sf.settle 1 3/sf.poll 1 10/sf.work 0 5/sf.poll 4 11/sf.fail 4 6/sf.poll 4 12/sf.drop 0",
        text: "made/made/done/value 3/made/pending/done wake 11/err 6/done/done 9",
        status: Status::Done,
    },
    // Who waited for a value of a group gets it, also while the key is computed anew.
    Row {
        script: "sf.new/sf.work 0 5/sf.poll 1 10/sf.work 0 5/sf.poll 3 11/sf.settle 1 2/sf.poll 1 12/sf.work 0 5/sf.poll 7 13/sf.poll 3 14/sf.end 7/sf.drop 0",
        text: "made/made/pending/made/pending/done wake 10/value 2 wake 11/made/pending/value 2/done/done/done 12",
        status: Status::Done,
    },
];

#[test]
fn maps_and_groups(rt: HostRuntime) {
    check_rows(&rt, ROWS);
}
