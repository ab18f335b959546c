//! The core of a job service: jobs of many clients on a fixed number of permits, fairly by client, with a bounded queue, a
//! bounded list of results and an orderly stop.
//!
//! It stands on the contracts of fair admission, of a bounded channel and of a shutdown alone. Programs that read lines
//! stand on it.
#![tactic(auto)]

mod by_order;
mod counts;
mod finish_error;
mod job_core;
mod laws;
mod start;
mod submit_error;
mod unknown_job;
mod waiting_job;
mod work;

pub use counts::Counts;
pub use finish_error::FinishError;
pub use job_core::JobCore;
pub use laws::{
    a_call_wakes_at_most_one, a_core_stands_for_the_record, a_stop_loses_no_job,
    each_job_comes_back_once, jobs_go_forward, no_permit_is_free_while_a_job_is_queued,
    results_are_in_order, the_key_with_fewest_running_jobs_starts,
};
pub use start::Start;
pub use submit_error::SubmitError;
pub use unknown_job::UnknownJob;
