use crate::programs::Pools;
use crate::rows::{Row, read_fails, write_fails};
use mea_script::Status;

const ROW: Row = Row {
    words: &["pool", "1"],
    script: "ask/poll 0 1/ask/poll 2 2/back 1/poll 2 3/drain",
    text: "made/lease 0 0/made/pending/done wake 2/lease 0 0/done/done 7",
    status: Status::Done,
};

#[test]
fn a_read_fails(rt: HostRuntime) {
    let _written = read_fails::<Pools>(&rt, &ROW);
}

#[test]
fn a_write_fails(rt: HostRuntime) {
    assert!(rt; write_fails::<Pools>(&rt, &ROW) == 4);
}
