use mea_share_core::ShareAcquire;
use std::marker::Model;

/// A job that waits for a permit: its acquire and its value.
#[derive(Drop)]
pub struct WaitingJob {
    pub acquire: ShareAcquire<u64>,
    pub value: u64,
}

impl Model for WaitingJob {
    ghost use Rattle.mea_job_core.specs.Waiting.{Waiting};

    ghost Value = { Waiting };

    ghost view = { λ j. record { key = j.acquire.key; stage = j.acquire.stage; value = j.value } };
}
