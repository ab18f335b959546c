use crate::rows::check;
use mea_run::Status;
use std::process::Abort;

// A script for each kind of wait, with its text. One wait is ended when it is new, one when it is pending, one when it
// could be ready, and one after two polls with different wakers; then who is next is served.
const ROWS: &[(&str, &str)] = &[
    // `acq`.
    (
        "new 1/try 0 1/acq 0 1/end 2/acq 0 1/poll 4 10/acq 0 1/poll 6 11/end 4/end 1/acq 0 1/poll 10 12/end 6/poll 10 13/acq 0 1/poll 14 14/poll 14 15/acq 0 1/poll 17 16/end 14/end 13/poll 17 17/ledger 0/end 21/free 0",
        "made/some/made/done/made/pending/made/pending/done/done wake 11/made/pending/done wake 12/ready/made/pending/pending/made/pending/done/done wake 16/ready/ledger 1 0 0 0 1 0 0/done/free 1/done 25",
    ),
    // `acqo`.
    (
        "new 1/try 0 1/acqo 0 1/end 2/acqo 0 1/poll 4 10/acqo 0 1/poll 6 11/end 4/end 1/acqo 0 1/poll 10 12/end 6/poll 10 13/acqo 0 1/poll 14 14/poll 14 15/acqo 0 1/poll 17 16/end 14/end 13/poll 17 17/ledger 0/end 21/free 0",
        "made/some/made/done/made/pending/made/pending/done/done wake 11/made/pending/done wake 12/ready/made/pending/pending/made/pending/done/done wake 16/ready/ledger 1 0 0 0 1 0 0/done/free 1/done 25",
    ),
    // `acqf`.
    (
        "new 0/acqf 0 1/end 1/acqf 0 1/poll 3 10/acqf 0 1/poll 5 11/end 3/release 0 1/acqf 0 1/poll 9 12/end 5/poll 9 13/acqf 0 1/poll 13 14/poll 13 15/acqf 0 1/poll 16 16/end 13/release 0 1/poll 16 17/ledger 0",
        "made/made/done/made/pending/made/pending/done/done wake 11/made/pending/done wake 12/ready/made/pending/pending/made/pending/done/done wake 16/ready/ledger 0 2 0 0 0 0 2/done 22",
    ),
    // `acqof`.
    (
        "new 0/acqof 0 1/end 1/acqof 0 1/poll 3 10/acqof 0 1/poll 5 11/end 3/release 0 1/acqof 0 1/poll 9 12/end 5/poll 9 13/acqof 0 1/poll 13 14/poll 13 15/acqof 0 1/poll 16 16/end 13/release 0 1/poll 16 17/ledger 0",
        "made/made/done/made/pending/made/pending/done/done wake 11/made/pending/done wake 12/ready/made/pending/pending/made/pending/done/done wake 16/ready/ledger 0 2 0 0 0 0 2/done 22",
    ),
    // An acquire that was paid in part: what it was paid goes to the next, also after a further poll.
    (
        "new 2/acq 0 5/poll 1 10/acq 0 4/poll 3 11/release 0 1/poll 1 12/end 1/ledger 0/acq 0 3/poll 9 13/release 0 1/end 3/poll 9 14/ledger 0",
        "made/made/pending/made/pending/done/pending/done/ledger 2 1 0 0 0 3 0/made/pending/done wake 11/done wake 13/ready/ledger 2 2 0 1 3 0 0/done 15",
    ),
    // `bar.wait`: an ended wait has arrived, and its waker stays.
    (
        "bar.new 2/bar.wait 0/bar.end 1/bar.wait 0/bar.poll 3 10/bar.end 3/bar.wait 0/bar.poll 6 11/bar.wait 0/bar.poll 8 12/bar.wait 0/bar.poll 10 13/bar.end 8/bar.wait 0/bar.poll 13 14/bar.poll 13 15/bar.end 13/bar.wait 0/bar.poll 17 16/bar.drop 0",
        "made/made/done/made/pending/done/made/leader wake 10/made/pending/made/leader wake 12/done/made/pending/pending/done/made/leader wake 15/done/done 20",
    ),
    // `lat.wait`: the waker of an ended wait stays.
    (
        "lat.new 1/lat.wait 0/lat.end 1/lat.wait 0/lat.poll 3 10/lat.wait 0/lat.poll 5 11/lat.end 3/lat.wait 0/lat.poll 8 12/lat.poll 8 13/lat.end 8/lat.wait 0/lat.poll 12 14/lat.down 0/lat.end 5/lat.poll 12 15/lat.drop 0",
        "made/made/done/made/pending/made/pending/done/made/pending/pending/done/made/pending/done wake 10 11 13 14/done/ready/done/done 18",
    ),
    // `lat.waito`: the waker of an ended wait stays.
    (
        "lat.new 1/lat.waito 0/lat.end 1/lat.waito 0/lat.poll 3 10/lat.waito 0/lat.poll 5 11/lat.end 3/lat.waito 0/lat.poll 8 12/lat.poll 8 13/lat.end 8/lat.waito 0/lat.poll 12 14/lat.down 0/lat.end 5/lat.poll 12 15/lat.drop 0",
        "made/made/done/made/pending/made/pending/done/made/pending/pending/done/made/pending/done wake 10 11 13 14/done/ready/done/done 18",
    ),
    // A wait of a group, made by `wg.into` and `wg.copy`.
    (
        "wg.new/wg.clone 0/wg.into 1/wg.copy 2/wg.end 3/wg.copy 2/wg.poll 5 10/wg.end 5/wg.copy 2/wg.poll 8 11/wg.poll 8 12/wg.end 8/wg.copy 2/wg.poll 12 13/wg.poll 2 14/wg.end 0/wg.end 12/wg.poll 2 15",
        "made/made/made/made/done/made/pending/done/made/pending/pending/done/made/pending/pending/done wake 10 12 13 14/done/ready/done 18",
    ),
    // `sd.is`.
    (
        "sd.new/sd.is 0/sd.end 1/sd.is 0/sd.poll 3 10/sd.end 3/sd.is 0/sd.poll 6 11/sd.poll 6 12/sd.end 6/sd.is 0/sd.poll 10 13/sd.is 0/sd.poll 12 14/sd.signal 0/sd.end 10/sd.poll 12 15",
        "made/made/done/made/pending/done/made/pending/pending/done/made/pending/made/pending/done wake 10 12 13 14/done/ready/done 17",
    ),
    // `sd.iso`.
    (
        "sd.new/sd.iso 0/sd.end 1/sd.iso 0/sd.poll 3 10/sd.end 3/sd.iso 0/sd.poll 6 11/sd.poll 6 12/sd.end 6/sd.iso 0/sd.poll 10 13/sd.iso 0/sd.poll 12 14/sd.signal 0/sd.end 10/sd.poll 12 15",
        "made/made/done/made/pending/done/made/pending/pending/done/made/pending/made/pending/done wake 10 12 13 14/done/ready/done 17",
    ),
    // `sd.await`, which ends its sender.
    (
        "sd.new/sd.copys 0/sd.await 1/sd.end 2/sd.copys 0/sd.await 4/sd.poll 5 10/sd.end 5/sd.copys 0/sd.await 8/sd.poll 9 11/sd.poll 9 12/sd.end 9/sd.copys 0/sd.await 13/sd.poll 14 13/sd.await 0/sd.poll 16 14/sd.endr 0/sd.end 14/sd.poll 16 15",
        "made/made/made/done/made/made/pending/done/made/made/pending/pending/done/made/made/pending/made/pending/done wake 10 12 13 14/done/ready/done 21",
    ),
    // `mx.lock`.
    (
        "mx.new 5/mx.try 0/mx.lock 0/mx.end 2/mx.lock 0/mx.poll 4 10/mx.lock 0/mx.poll 6 11/mx.end 4/mx.end 1/mx.lock 0/mx.poll 10 12/mx.end 6/mx.poll 10 13/mx.lock 0/mx.poll 14 14/mx.poll 14 15/mx.lock 0/mx.poll 17 16/mx.end 14/mx.end 13/mx.poll 17 17/mx.get 21/mx.end 21/mx.into 0",
        "made/some/made/done/made/pending/made/pending/done/done wake 11/made/pending/done wake 12/ready/made/pending/pending/made/pending/done/done wake 16/ready/value 5/done/value 5/done 25",
    ),
    // `mx.locko`.
    (
        "mx.new 5/mx.try 0/mx.locko 0/mx.end 2/mx.locko 0/mx.poll 4 10/mx.locko 0/mx.poll 6 11/mx.end 4/mx.end 1/mx.locko 0/mx.poll 10 12/mx.end 6/mx.poll 10 13/mx.locko 0/mx.poll 14 14/mx.poll 14 15/mx.locko 0/mx.poll 17 16/mx.end 14/mx.end 13/mx.poll 17 17/mx.get 21/mx.end 21/mx.into 0",
        "made/some/made/done/made/pending/made/pending/done/done wake 11/made/pending/done wake 12/ready/made/pending/pending/made/pending/done/done wake 16/ready/value 5/done/value 5/done 25",
    ),
    // `rw.write`, which is paid one reader at a time.
    (
        "rw.max 5 2/rw.tryr 0/rw.write 0/rw.end 2/rw.write 0/rw.poll 4 10/rw.read 0/rw.poll 6 11/rw.end 4/rw.poll 6 12/rw.write 0/rw.poll 10 13/rw.write 0/rw.poll 12 14/rw.end 1/rw.end 9/rw.end 10/rw.poll 12 15/rw.write 0/rw.poll 18 16/rw.poll 18 17/rw.write 0/rw.poll 21 18/rw.end 18/rw.end 17/rw.poll 21 19/rw.set 25 6/rw.end 25/rw.into 0",
        "made/some/made/done/made/pending/made/pending/done wake 11/ready/made/pending/made/pending/done/done wake 13/done wake 14/ready/made/pending/pending/made/pending/done/done wake 18/ready/done/done/value 6/done 29",
    ),
    // `rw.writeo`, which is paid one reader at a time.
    (
        "rw.max 5 2/rw.tryr 0/rw.writeo 0/rw.end 2/rw.writeo 0/rw.poll 4 10/rw.reado 0/rw.poll 6 11/rw.end 4/rw.poll 6 12/rw.writeo 0/rw.poll 10 13/rw.writeo 0/rw.poll 12 14/rw.end 1/rw.end 9/rw.end 10/rw.poll 12 15/rw.writeo 0/rw.poll 18 16/rw.poll 18 17/rw.writeo 0/rw.poll 21 18/rw.end 18/rw.end 17/rw.poll 21 19/rw.set 25 6/rw.end 25/rw.into 0",
        "made/some/made/done/made/pending/made/pending/done wake 11/ready/made/pending/made/pending/done/done wake 13/done wake 14/ready/made/pending/pending/made/pending/done/done wake 18/ready/done/done/value 6/done 29",
    ),
    // `rw.read`.
    (
        "rw.max 5 2/rw.tryw 0/rw.read 0/rw.end 2/rw.read 0/rw.poll 4 10/rw.read 0/rw.poll 6 11/rw.read 0/rw.poll 8 12/rw.end 4/rw.end 1/rw.read 0/rw.poll 12 13/rw.end 6/rw.poll 8 14/rw.poll 12 15/rw.read 0/rw.poll 17 16/rw.poll 17 17/rw.read 0/rw.poll 20 18/rw.end 17/rw.end 15/rw.poll 20 19/rw.get 24",
        "made/some/made/done/made/pending/made/pending/made/pending/done/done wake 11 12/made/pending/done wake 13/ready/ready/made/pending/pending/made/pending/done/done wake 18/ready/value 5/done 26",
    ),
    // `rw.reado`.
    (
        "rw.max 5 2/rw.tryw 0/rw.reado 0/rw.end 2/rw.reado 0/rw.poll 4 10/rw.reado 0/rw.poll 6 11/rw.reado 0/rw.poll 8 12/rw.end 4/rw.end 1/rw.reado 0/rw.poll 12 13/rw.end 6/rw.poll 8 14/rw.poll 12 15/rw.reado 0/rw.poll 17 16/rw.poll 17 17/rw.reado 0/rw.poll 20 18/rw.end 17/rw.end 15/rw.poll 20 19/rw.get 24",
        "made/some/made/done/made/pending/made/pending/made/pending/done/done wake 11 12/made/pending/done wake 13/ready/ready/made/pending/pending/made/pending/done/done wake 18/ready/value 5/done 26",
    ),
    // `cv.wait`: new it gives its lock up; notified by one alone, or with the lock granted for that, it notifies the next; notified with all it does not.
    (
        "mx.new 0/cv.new/mx.try 0/mx.lock 0/mx.poll 3 9/cv.wait 1 2/cv.end 5/mx.poll 3 8/cv.wait 1 7/cv.poll 8 10/mx.try 0/cv.wait 1 10/cv.poll 11 11/cv.end 8/cv.one 1/mx.try 0/cv.wait 1 15/cv.poll 16 12/cv.end 11/mx.try 0/cv.poll 16 13/cv.wait 1 19/cv.poll 21 14/cv.end 16/cv.poll 21 15/cv.wait 1 24/cv.poll 25 16/cv.poll 25 17/mx.try 0/cv.wait 1 28/cv.poll 29 18/cv.end 25/cv.one 1/cv.poll 29 19/cv.wait 1 33/cv.poll 34 20/mx.try 0/cv.wait 1 36/cv.poll 37 21/cv.all 1/cv.end 34/cv.poll 37 22/mx.get 41",
        "made/made/some/made/pending/made/done wake 9/ready/made/pending/some/made/pending/done/done wake 11/some/made/pending/done wake 12/some/pending/made/pending wake 13/done wake 14/ready/made/pending/pending/some/made/pending/done/done wake 18/ready/made/pending/some/made/pending/done wake 20 21/done/ready/value 0/done 43",
    ),
    // `cv.waitw`: a wait whose condition does not hold goes to the tail again.
    (
        "mx.new 0/cv.new/mx.try 0/mx.lock 0/mx.poll 3 9/cv.waitw 1 2 1/cv.end 5/mx.poll 3 8/cv.waitw 1 7 1/cv.poll 8 10/mx.try 0/cv.waitw 1 10 1/cv.poll 11 11/cv.end 8/cv.one 1/mx.try 0/cv.waitw 1 15 1/cv.poll 16 12/cv.end 11/mx.try 0/cv.poll 16 13/cv.waitw 1 19 1/cv.poll 21 14/cv.end 16/cv.poll 21 15/cv.poll 21 16/mx.try 0/cv.waitw 1 26 1/cv.poll 27 17/cv.end 21/mx.try 0/mx.set 30 1/mx.end 30/cv.one 1/cv.poll 27 18/mx.get 34",
        "made/made/some/made/pending/made/done wake 9/ready/made/pending/some/made/pending/done/done wake 11/some/made/pending/done wake 12/some/pending/made/pending wake 13/done wake 14/pending/pending/some/made/pending/done/some/done/done/done wake 17/ready/value 1/done 36",
    ),
    // `mb.send`: a granted send that ends passes its place on.
    (
        "mb.new 1/mb.try 0 7/mb.send 0 8/mb.end 2/mb.send 0 9/mb.poll 4 10/mb.send 0 10/mb.poll 6 11/mb.send 0 11/mb.poll 8 12/mb.end 4/mb.tryr 0/mb.end 6/mb.poll 8 13/mb.send 0 12/mb.poll 14 14/mb.poll 14 15/mb.send 0 13/mb.poll 17 16/mb.end 14/mb.tryr 0/mb.poll 17 17/mb.tryr 0/mb.tryr 0",
        "made/ok/made/done/made/pending/made/pending/made/pending/done/got 7 wake 11/done wake 12/ok/made/pending/pending/made/pending/done/got 11 wake 16/ok/got 13/empty/done 24",
    ),
    // `os.into`: a message that comes to nobody comes back, and one that was there falls.
    (
        "os.new/os.into 0/os.end 1/os.send 0 1/os.new/os.into 4/os.poll 5 10/os.end 5/os.send 4 2/os.new/os.into 9/os.poll 10 11/os.poll 10 12/os.send 9 3/os.end 10/os.new/os.into 15/os.poll 16 13/os.poll 16 14/os.end 16/os.ends 15/os.new/os.into 21/os.poll 22 15/os.send 21 5/os.poll 22 16",
        "made/made/done/closed 1/made/made/pending/done/closed 2/made/made/pending/pending/ok wake 12/done/made/made/pending/pending/done/done/made/made/pending/ok wake 15/got 5/done 26",
    ),
    // `bc.recv`: the waker of an ended receive stays, and its receiver hears the message later.
    (
        "bc.new 2/bc.sub 0/bc.recv 0/bc.end 2/bc.recv 0/bc.poll 4 10/bc.end 4/bc.recv 0/bc.poll 7 11/bc.poll 7 12/bc.recv 1/bc.poll 10 13/bc.send 0 7/bc.end 7/bc.poll 10 14/bc.recv 0/bc.poll 15 15",
        "made/made/made/done/made/pending/done/made/pending/pending/made/pending/done wake 10 12 13/done/got 7/made/got 7/done 17",
    ),
    // `on.call`: who has the turn and ends hands it on, also where its initialiser is settled.
    (
        "on.new/on.call 0/on.end 1/on.call 0/on.poll 3 10/on.call 0/on.poll 5 11/on.end 3/on.poll 5 12/on.call 0/on.poll 9 13/on.settle 5/on.end 5/on.poll 9 14/on.poll 9 15/on.call 0/on.poll 15 16/on.end 9/on.done 0/on.settle 15/on.poll 15 17/on.done 0",
        "made/made/done/made/pending/made/pending/done wake 11/pending/made/pending/done wake 12/done wake 13/pending/pending/made/pending/done wake 16/no/done/ready/yes/done 22",
    ),
    // `on.wait`: the waker of an ended wait stays.
    (
        "on.new/on.wait 0/on.end 1/on.wait 0/on.poll 3 10/on.end 3/on.wait 0/on.poll 6 11/on.poll 6 12/on.end 6/on.wait 0/on.poll 10 13/on.wait 0/on.poll 12 14/on.call 0/on.settle 14/on.poll 14 15/on.end 10/on.poll 12 16",
        "made/made/done/made/pending/done/made/pending/pending/done/made/pending/made/pending/made/done/ready wake 10 12 13 14/done/ready/done 19",
    ),
    // `oc.init`.
    (
        "oc.new/oc.init 0/oc.end 1/oc.init 0/oc.poll 3 10/oc.init 0/oc.poll 5 11/oc.end 3/oc.poll 5 12/oc.init 0/oc.poll 9 13/oc.settle 5 7/oc.end 5/oc.poll 9 14/oc.poll 9 15/oc.init 0/oc.poll 15 16/oc.end 9/oc.get 0/oc.settle 15 8/oc.poll 15 17/oc.get 0",
        "made/made/done/made/pending/made/pending/done wake 11/pending/made/pending/done wake 12/done wake 13/pending/pending/made/pending/done wake 16/none/done/value 8/value 8/done 22",
    ),
    // `oc.minit`, which has its cell alone, so that nobody is queued.
    (
        "oc.new/oc.minit 0/oc.end 1/oc.minit 0/oc.poll 3 10/oc.end 3/oc.minit 0/oc.poll 6 11/oc.poll 6 12/oc.end 6/oc.minit 0/oc.poll 10 13/oc.settle 10 3/oc.end 10/oc.peek 0/oc.minit 0/oc.settle 15 4/oc.poll 15 14/oc.peek 0",
        "made/made/done/made/pending/done/made/pending/pending/done/made/pending/done wake 13/done/none/made/done/value 4/value 4/done 19",
    ),
    // `oc.set`, behind a computation that is given up.
    (
        "oc.new/oc.set 0 1/oc.end 1/oc.init 0/oc.poll 3 10/oc.set 0 2/oc.poll 5 11/oc.set 0 3/oc.poll 7 12/oc.set 0 4/oc.poll 9 13/oc.poll 9 14/oc.set 0 5/oc.poll 12 15/oc.end 5/oc.end 3/oc.end 9/oc.end 7/oc.get 0/oc.poll 12 16/oc.get 0",
        "made/made/done/made/pending/made/pending/made/pending/made/pending/pending/made/pending/done/done wake 12/done/done wake 15/none/ok/value 5/done 21",
    ),
    // `oc.ins`, behind a computation that is given up.
    (
        "oc.new/oc.ins 0 1/oc.end 1/oc.init 0/oc.poll 3 10/oc.ins 0 2/oc.poll 5 11/oc.ins 0 3/oc.poll 7 12/oc.ins 0 4/oc.poll 9 13/oc.poll 9 14/oc.ins 0 5/oc.poll 12 15/oc.end 5/oc.end 3/oc.end 9/oc.end 7/oc.get 0/oc.poll 12 16/oc.get 0",
        "made/made/done/made/pending/made/pending/made/pending/made/pending/pending/made/pending/done/done wake 12/done/done wake 15/none/value 5/value 5/done 21",
    ),
    // `om.compute`.
    (
        "om.new/om.compute 0 5/om.end 1/om.compute 0 5/om.poll 3 10/om.compute 0 5/om.poll 5 11/om.end 3/om.poll 5 12/om.compute 0 5/om.poll 9 13/om.settle 5 7/om.end 5/om.poll 9 14/om.poll 9 15/om.compute 0 5/om.poll 15 16/om.end 9/om.settle 15 8/om.poll 15 17/om.get 0 5/om.drop 0",
        "made/made/done/made/pending/made/pending/done wake 11/pending/made/pending/done wake 12/done wake 13/pending/pending/made/pending/done wake 16/done/value 8/value 8/done/done 22",
    ),
    // `sf.work`.
    (
        "sf.new/sf.work 0 5/sf.end 1/sf.work 0 5/sf.poll 3 10/sf.work 0 5/sf.poll 5 11/sf.end 3/sf.poll 5 12/sf.work 0 5/sf.poll 9 13/sf.settle 5 7/sf.end 5/sf.poll 9 14/sf.poll 9 15/sf.work 0 5/sf.poll 15 16/sf.end 9/sf.settle 15 8/sf.poll 15 17/sf.work 0 5/sf.settle 20 9/sf.poll 20 18/sf.drop 0",
        "made/made/done/made/pending/made/pending/done wake 11/pending/made/pending/done wake 12/done wake 13/pending/pending/made/pending/done wake 16/done/value 8/made/done/value 9/done/done 24",
    ),
    // `fs.acq`.
    (
        "fs.new 1/fs.try 0 1/fs.acq 0 1/fs.end 2/fs.acq 0 1/fs.poll 4 10/fs.acq 0 2/fs.poll 6 11/fs.end 4/fs.end 1/fs.acq 0 1/fs.poll 10 12/fs.end 6/fs.poll 10 13/fs.acq 0 1/fs.poll 14 14/fs.poll 14 15/fs.acq 0 2/fs.poll 17 16/fs.end 14/fs.end 13/fs.poll 17 17/fs.key 21/fs.end 21/fs.free 0",
        "made/some/made/done/made/pending/made/pending/done/done wake 11/made/pending/done wake 12/ready/made/pending/pending/made/pending/done/done wake 16/ready/key 2/done/free 1/done 25",
    ),
    // `fs.acqo`.
    (
        "fs.new 1/fs.try 0 1/fs.acqo 0 1/fs.end 2/fs.acqo 0 1/fs.poll 4 10/fs.acqo 0 2/fs.poll 6 11/fs.end 4/fs.end 1/fs.acqo 0 1/fs.poll 10 12/fs.end 6/fs.poll 10 13/fs.acqo 0 1/fs.poll 14 14/fs.poll 14 15/fs.acqo 0 2/fs.poll 17 16/fs.end 14/fs.end 13/fs.poll 17 17/fs.key 21/fs.end 21/fs.free 0",
        "made/some/made/done/made/pending/made/pending/done/done wake 11/made/pending/done wake 12/ready/made/pending/pending/made/pending/done/done wake 16/ready/key 2/done/free 1/done 25",
    ),
];

// Plays each script to its end.
fn check_stages(rt: &(impl Abort + AllocGlobal), rows: &[(&str, &str)]) {
    for (script, text) in rows {
        check(rt, script, text, &Status::Done);
    }
}

#[test]
fn stage_table(rt: HostRuntime) {
    check_stages(&rt, ROWS);
}
