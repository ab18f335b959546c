use crate::rows::{Row, check_rows};
use mea_family::Stop;
use mea_run::Status;

// The texts are those of a driver over the real crate.
const ROWS: &[Row] = &[
    // Somebody waits at each kind of primitive, all are woken in turn, and then each is ready.
    Row {
        script: "new 0/acq 0 1/poll 1 10/bar.new 2/bar.wait 3/bar.poll 4 11/lat.new 1/lat.wait 6/lat.poll 7 12/wg.new/wg.clone 9/wg.into 10/wg.poll 11 13/sd.new/sd.is 13/sd.poll 14 14/mx.new 5/mx.tryo 16/mx.lock 16/mx.poll 18 15/rw.new 6/rw.trywo 20/rw.read 20/rw.poll 22 16/cv.new/mx.new 7/mx.try 25/cv.wait 24 26/cv.poll 27 17/mb.new 1/mb.recv 29 18/mu.new/mu.recv 31 19/os.new/os.into 33/os.poll 34 20/bc.new 2/bc.recv 36/bc.poll 37 21/fs.new 1/fs.tryo 39 1/fs.acq 39 2/fs.poll 41 22/on.new/on.wait 43/on.poll 44 23/oc.new/oc.init 46/oc.poll 47 24/om.new/om.compute 49 5/om.poll 50 25/sf.new/sf.work 52 5/sf.poll 53 26/release 0 1/bar.wait 3/bar.poll 56 30/lat.down 6/wg.end 9/sd.signal 13/mx.end 17/rw.end 21/cv.one 24/mb.try 29 1/mu.send 31 2/os.send 33 3/bc.send 36 4/fs.end 40/on.call 43/on.settle 69/on.poll 69 31/oc.settle 47 8/om.settle 50 9/sf.settle 53 7/poll 1 40/bar.poll 4 41/lat.poll 7 42/wg.poll 11 43/sd.poll 14 44/mx.poll 18 45/rw.poll 22 46/cv.poll 27 47/mb.recv 29 48/mu.recv 31 49/os.poll 34 50/bc.poll 37 51/fs.poll 41 52/on.poll 44 53/oc.poll 47 54/om.poll 50 55/sf.poll 53 56",
        text: "made/made/pending/made/made/pending/made/made/pending/made/made/made/pending/made/made/pending/made/some/made/pending/made/some/made/pending/made/made/some/made/pending/made/pending/made/pending/made/made/pending/made/made/pending/made/some/made/pending/made/made/pending/made/made/pending/made/made/pending/made/made/pending/done wake 10/made/leader wake 11/done wake 12/done wake 13/done wake 14/done wake 15/done wake 16/done wake 17/ok wake 18/ok wake 19/ok wake 20/done wake 21/done wake 22/made/done/ready wake 23/done wake 24/done wake 25/done wake 26/ready/ready/ready/ready/ready/ready/ready/ready/got 1/got 2/got 3/got 4/ready/ready/value 8/value 9/value 7/done 92",
        status: Status::Done,
    },
    // Lines of all families in no order, up to a name that is no future of a group.
    Row {
        script: "sf.new/sf.work 0 1/sf.settle 1 2/oc.new/lat.new 3/bar.new 1/sf.forget 0 1/mu.new/lat.arrive 4 4/oc.take 3/oc.ins 3 3/oc.set 3 5/ab.new 4/oc.poll 11 78/wg.new/bc.new 2/oc.from 3/mx.new 0/sf.poll 1 126/rw.new 0/om.new/om.compute 20 1/om.poll 21 151/on.new/ao.none/bar.wait 5/cv.new/sd.new/ao.new 4/cv.one 26/om.settle 21 1/om.poll 21 284/fs.new 1/sf.work 0 0/bc.send 15 0/lat.count 4/ao.clear 28/oc.ins 16 4/os.new/os.ends 38/os.try 38/new 0/rw.max 2 3/sf.work 0 0/release 41 4/wg.end 14/rw.read 42/fs.waiters 32/acqo 41 1/sf.settle 43 5/mb.new 1/lat.count 4/oc.init 16/mb.send 50 5/mb.send 50 0/oc.ins 3 5/mx.tryo 17/lat.count 4/ao.none/lat.try 4/sf.poll 10 549",
        text: "made/made/done/made/made/made/done/made/done/none/made/made/made/ok/made/made/made/made/value 2/made/made/made/pending/made/made/made/made/made/made/done/done wake 151/value 1/made/made/done/count 0/done/made/made/done/gone/made/made/made/done/done/made/count 0/made/done/made/count 0/made/made/made/made/some/count 0/made/ok/stop 60 unknown",
        status: Status::Stopped {
            at: 60,
            cause: Stop::Unknown,
        },
    },
];

#[test]
fn all_families_in_one_script(rt: HostRuntime) {
    check_rows(&rt, ROWS);
}
