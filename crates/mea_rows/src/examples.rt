use crate::rows::{Row, check_rows};
use mea_run::Status;

// The scripts of the folder examples/ with their texts.
const EXAMPLES: &[Row] = &[
    // A waiter is cancelled, and what it was paid goes to the next.
    Row {
        script: "new 3/acq 0 5/poll 1 10/acq 0 2/poll 3 11/release 0 1/end 1/free 0/poll 3 12/ledger 0",
        text: "made/made/pending/made/pending/done/done wake 11/free 2/ready/ledger 3 1 0 2 2 0 0/done 10",
        status: Status::Done,
    },
    // A rate limiter whose limit is lowered while permits are out, as a debt.
    Row {
        script: "new 10/acqf 0 6/poll 1 1/acqf 0 3/poll 3 2/forgetx 0 4/acqf 0 5/poll 6 3/ledger 0/release 0 3/release 0 5/poll 6 3/ledger 0",
        text: "made/made/ready/made/ready/done/made/pending/ledger 10 0 3 0 0 0 13/done/done wake 3/ready/ledger 10 8 0 0 0 0 18/done 13",
        status: Status::Done,
    },
    // A pool of three connections and eight clients.
    Row {
        script: "new 3/acq 0 1/poll 1 101/acq 0 1/poll 3 102/acq 0 1/poll 5 103/acq 0 1/poll 7 104/acq 0 1/poll 9 105/acq 0 1/poll 11 106/acq 0 1/poll 13 107/acq 0 1/poll 15 108/free 0/end 9/end 2/poll 7 104/end 4/poll 11 106/free 0/end 6/poll 13 107/end 20/poll 15 108/try 0 1/end 22/free 0/end 25/end 27/free 0/try 0 3/split 34 1/size 34/merge 34 35/end 34/ledger 0",
        text: "made/made/ready/made/ready/made/ready/made/pending/made/pending/made/pending/made/pending/made/pending/free 0/done/done wake 104/ready/done wake 106/ready/free 0/done wake 107/ready/done wake 108/ready/none/done/free 1/done/done/free 3/some/some/permits 2/done/done/ledger 3 0 0 3 0 0 0/done 40",
        status: Status::Done,
    },
    // A latch at start-up: who waits is woken when the last of three is up.
    Row {
        script: "lat.new 3/lat.wait 0/lat.poll 1 10/lat.down 0/lat.waito 0/lat.poll 4 11/lat.arrive 0 2/lat.poll 1 12/lat.poll 4 13/lat.try 0/lat.drop 0",
        text: "made/made/pending/done/made/pending/done wake 10 11/ready/ready/ok/done/done 11",
        status: Status::Done,
    },
    // A shutdown: two workers learn of the signal, and who asked for it waits until both are gone.
    Row {
        script: "sd.new/sd.copyr 0/sd.is 0/sd.poll 2 10/sd.is 1/sd.poll 4 11/sd.watch 0/sd.now 6/sd.signal 0/sd.now 6/sd.poll 2 12/sd.poll 4 13/sd.await 0/sd.poll 12 14/sd.endr 0/sd.endr 1/sd.poll 12 15/sd.endr 6",
        text: "made/made/made/pending/made/pending/made/no/done wake 10 11/yes/ready/ready/made/pending/done/done wake 14/ready/done/done 18",
        status: Status::Done,
    },
];

#[test]
fn examples(rt: HostRuntime) {
    check_rows(&rt, EXAMPLES);
}
