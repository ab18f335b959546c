use crate::programs::Jobs;
use crate::rows::{Row, check_rows};
use mea_script::Status;

const WHO_STARTS: &[Row] = &[
    // The key's running jobs are counted after the finished one is taken off ..
    Row {
        words: &["jobs", "1", "2", "1"],
        script: "job 1 10/job 1 11/job 2 12/fin 0 1",
        text: "running/queued/queued/done start 1/done 4",
        status: Status::Done,
    },
    // .. and those that run now alone.
    Row {
        words: &["jobs", "2", "2", "1"],
        script: "job 1 36/job 1 6/job 1 32/job 0 18/fin 0 32",
        text: "running/running/queued/queued/done start 3/done 5",
        status: Status::Done,
    },
];

const REFUSALS: &[Row] = &[
    // The number of a job that was refused names nothing.
    Row {
        words: &["jobs", "1", "1", "1"],
        script: "job 1 1/job 1 2/job 1 3/fin 2 0/recall 2/count",
        text: "running/queued/full/unknown/unknown/count 2 1 1 0 0/done 6",
        status: Status::Done,
    },
    // A job that finds no room for its result runs on; unknown comes before full; no room is reserved at a start.
    Row {
        words: &["jobs", "2", "1", "1"],
        script: "job 1 1/job 1 2/fin 0 5/fin 1 6/fin 9 6/count/take/fin 1 6/take/take",
        text: "running/running/done/full/unknown/count 2 1 0 1 0/job 0 5/done/job 1 6/none/done 10",
        status: Status::Done,
    },
];

const ENDS: &[Row] = &[
    // A poll before the stop keeps its waker, which the stop wakes where no job runs; a woken one has left, and a poll
    // that is ready keeps none.
    Row {
        words: &["jobs", "1", "1", "1"],
        script: "poll 7/stop/stop/poll 8/stop",
        text: "pending/done wake 7/done/ready/done/done 5",
        status: Status::Done,
    },
    // A later poll's waker takes the place of the one before.
    Row {
        words: &["jobs", "1", "1", "1"],
        script: "poll 7/poll 8/stop",
        text: "pending/pending/done wake 8/done 3",
        status: Status::Done,
    },
    // While a job runs the stop wakes nobody, and its finish does.
    Row {
        words: &["jobs", "1", "1", "1"],
        script: "poll 7/job 1 1/stop/poll 9/fin 1 5",
        text: "pending/running/done/pending/done wake 9/done 5",
        status: Status::Done,
    },
    // The end waits for running jobs alone, not for results or for jobs to hand back.
    Row {
        words: &["jobs", "1", "1", "1"],
        script: "job 1 10/job 1 11/stop/poll 4/fin 0 6/poll 5/take/back",
        text: "running/queued/done/pending/done wake 4/ready/job 0 6/job 1 11/done 8",
        status: Status::Done,
    },
    // A second stop returns nobody and wakes nobody.
    Row {
        words: &["jobs", "1", "2", "1"],
        script: "job 1 1/job 1 2/stop/stop/back/back/count",
        text: "running/queued/done/done/job 1 2/none/count 2 1 0 0 1/done 7",
        status: Status::Done,
    },
];

const RETURNED: &[Row] = &[
    // A recalled job counts as returned, frees its place at once, and is not handed back.
    Row {
        words: &["jobs", "1", "1", "1"],
        script: "job 1 1/job 1 2/recall 1/job 1 3/stop/back/back/count",
        text: "running/queued/value 2/queued/done/job 3 3/none/count 3 1 0 0 2/done 8",
        status: Status::Done,
    },
    // Jobs are handed back by rising number over all keys.
    Row {
        words: &["jobs", "1", "3", "1"],
        script: "job 1 1/job 9 2/job 5 3/job 1 4/stop/back/back/back/back",
        text: "running/queued/queued/queued/done/job 1 2/job 2 3/job 3 4/none/done 9",
        status: Status::Done,
    },
    // A job that the stop returned can't be recalled.
    Row {
        words: &["jobs", "1", "1", "1"],
        script: "job 1 1/job 1 2/stop/recall 1/back",
        text: "running/queued/done/unknown/job 1 2/done 5",
        status: Status::Done,
    },
];

#[test]
fn the_key_with_fewest_running_jobs_starts(rt: HostRuntime) {
    check_rows::<Jobs>(&rt, WHO_STARTS);
}

#[test]
fn refusals_change_nothing(rt: HostRuntime) {
    check_rows::<Jobs>(&rt, REFUSALS);
}

#[test]
fn the_end_is_told_once(rt: HostRuntime) {
    check_rows::<Jobs>(&rt, ENDS);
}

#[test]
fn jobs_come_back(rt: HostRuntime) {
    check_rows::<Jobs>(&rt, RETURNED);
}
