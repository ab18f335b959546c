use crate::programs::Jobs;
use crate::rows::{Row, check_rows};
use mea_script::Status;

// A finish and a recall of a job in each of its states.
const JOBS: &[Row] = &[
    // No job has the number.
    Row {
        words: &["jobs", "1", "3", "3"],
        script: "fin 5 1/recall 5",
        text: "unknown/unknown/done 2",
        status: Status::Done,
    },
    // It is queued.
    Row {
        words: &["jobs", "1", "3", "3"],
        script: "job 1 10/job 2 20/fin 1 1/recall 1",
        text: "running/queued/unknown/value 20/done 4",
        status: Status::Done,
    },
    // It runs.
    Row {
        words: &["jobs", "1", "3", "3"],
        script: "job 1 10/recall 0/fin 0 1",
        text: "running/unknown/done/done 3",
        status: Status::Done,
    },
    // It was finished, and its result is there or was taken.
    Row {
        words: &["jobs", "1", "3", "3"],
        script: "job 1 10/fin 0 1/fin 0 2/recall 0/take/fin 0 3/recall 0/take",
        text: "running/done/unknown/unknown/job 0 1/unknown/unknown/none/done 8",
        status: Status::Done,
    },
    // It was recalled.
    Row {
        words: &["jobs", "1", "3", "3"],
        script: "job 1 10/job 1 11/recall 1/fin 1 1/recall 1/fin 0 1",
        text: "running/queued/value 11/unknown/unknown/done/done 6",
        status: Status::Done,
    },
    // The stop returned it, and it was handed back.
    Row {
        words: &["jobs", "1", "3", "3"],
        script: "job 1 10/job 1 11/stop/fin 1 1/recall 1/back/fin 1 1/recall 1",
        text: "running/queued/done/unknown/unknown/job 1 11/unknown/unknown/done 8",
        status: Status::Done,
    },
];

// Every call of a service in each of its states.
const SERVICES: &[Row] = &[
    // It is new.
    Row {
        words: &["jobs", "1", "1", "1"],
        script: "fin 0 1/recall 0/take/back/count/poll 3/job 1 2",
        text: "unknown/unknown/none/none/count 0 0 0 0 0/pending/running/done 7",
        status: Status::Done,
    },
    // All permits are taken, and as many jobs are queued as may be.
    Row {
        words: &["jobs", "1", "1", "1"],
        script: "job 1 1/job 1 2/job 1 3/take/back/poll 3/count/recall 1/job 2 4/fin 0 9",
        text: "running/queued/full/none/none/pending/count 2 1 1 0 0/value 2/queued/done start 8/done 10",
        status: Status::Done,
    },
    // It was stopped, and a job runs.
    Row {
        words: &["jobs", "1", "1", "1"],
        script: "job 1 1/stop/job 1 2/recall 0/take/back/poll 3/stop/count/fin 0 4",
        text: "running/done/stopped/unknown/none/none/pending/done/count 1 1 0 0 0/done wake 3/done 10",
        status: Status::Done,
    },
    // It was stopped, and none runs.
    Row {
        words: &["jobs", "1", "1", "1"],
        script: "stop/job 1 1/fin 0 1/recall 0/take/back/stop/poll 3/count",
        text: "done/stopped/unknown/unknown/none/none/done/ready/count 0 0 0 0 0/done 9",
        status: Status::Done,
    },
];

#[test]
fn jobs_in_each_state(rt: HostRuntime) {
    check_rows::<Jobs>(&rt, JOBS);
}

#[test]
fn services_in_each_state(rt: HostRuntime) {
    check_rows::<Jobs>(&rt, SERVICES);
}
