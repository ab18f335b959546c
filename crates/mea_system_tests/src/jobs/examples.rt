use crate::programs::Jobs;
use crate::rows::{Row, check_rows};
use mea_script::Status;

const EXAMPLES: &[Row] = &[
    // One permit, two queued jobs, one result: who is refused, who starts, and who is woken at the end.
    Row {
        words: &["jobs", "1", "2", "1"],
        script: "job 1 10/job 1 11/job 2 12/job 3 13/fin 0 5/fin 1 6/take/fin 1 6/stop/back/poll 9/fin 2 7/take/fin 2 7/poll 8/job 1 1/count",
        text: "running/queued/queued/full/done start 1/full/job 0 5/done start 2/done/none/pending/full/job 1 6/done wake 9/ready/stopped/count 3 0 0 3 0/done 17",
        status: Status::Done,
    },
    // A job is recalled, and one comes back from the stop.
    Row {
        words: &["jobs", "1", "3", "2"],
        script: "job 1 10/job 1 11/job 1 12/recall 1/recall 1/stop/back/back/fin 0 1/count",
        text: "running/queued/queued/value 11/unknown/done/job 2 12/none/done/count 3 0 0 1 2/done 10",
        status: Status::Done,
    },
    // The script of the folder examples/: three clients share two workers, and the service is stopped.
    Row {
        words: &["jobs", "2", "4", "3"],
        script: "job 1 100/job 1 101/job 1 102/job 1 103/job 2 200/job 3 300/job 3 301/count/fin 0 1/fin 4 2/recall 3/take/poll 7/stop/back/back/fin 1 3/take/fin 5 4/take/take/take/poll 8/job 1 104/count",
        text: "running/running/queued/queued/queued/queued/full/count 6 2 4 0 0/done start 4/done start 5/value 103/job 0 1/pending/done/job 2 102/none/done/job 4 2/done wake 7/job 1 3/job 5 4/none/ready/stopped/count 6 0 0 4 2/done 25",
        status: Status::Done,
    },
];

#[test]
fn examples(rt: HostRuntime) {
    check_rows::<Jobs>(&rt, EXAMPLES);
}
