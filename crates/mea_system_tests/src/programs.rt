use mea_io::{Sink, Source};
use mea_job_run::run_jobs;
use mea_pool_run::run_pool;
use mea_script::Status;
use mea_script_tests::Program;
use mea_task_run::run_tasks;
use std::alloc::Global;

/// The job service.
pub(crate) struct Jobs;

impl Program for Jobs {
    fn run<S: Source, K: Sink>(
        alloc: Global,
        words: &[String],
        source: &mut S,
        sink: &mut K,
    ) -> Status {
        run_jobs(alloc, words, source, sink)
    }
}

/// The resource pool.
pub(crate) struct Pools;

impl Program for Pools {
    fn run<S: Source, K: Sink>(
        alloc: Global,
        words: &[String],
        source: &mut S,
        sink: &mut K,
    ) -> Status {
        run_pool(alloc, words, source, sink)
    }
}

/// Tasks on the executor.
pub(crate) struct Tasks;

impl Program for Tasks {
    fn run<S: Source, K: Sink>(
        alloc: Global,
        words: &[String],
        source: &mut S,
        sink: &mut K,
    ) -> Status {
        run_tasks(alloc, words, source, sink)
    }
}
