use crate::programs::Jobs;
use crate::rows::{Row, read_fails, write_fails};
use mea_script::Status;

const ROW: Row = Row {
    words: &["jobs", "1", "1", "1"],
    script: "job 1 10/job 1 11/stop/back/fin 0 1/take/count",
    text: "running/queued/done/job 1 11/done/job 0 1/count 2 0 0 1 1/done 7",
    status: Status::Done,
};

#[test]
fn a_read_fails(rt: HostRuntime) {
    let _written = read_fails::<Jobs>(&rt, &ROW);
}

#[test]
fn a_write_fails(rt: HostRuntime) {
    assert!(rt; write_fails::<Jobs>(&rt, &ROW) == 4);
}
