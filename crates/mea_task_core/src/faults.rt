use crate::step::Step;
use std::fmt;
use thiserror::Error;

/// Why a task is not added. Its steps come back, and nothing has changed.
#[derive(Drop, Error)]
pub enum AddFault {
    /// This step, counted from 0, is the first that means a semaphore which is not there.
    #[error("step {step} means a semaphore that is not there")]
    Unknown { step: usize, steps: Vec<Step> },
    /// The tasks and steps added would be more than 2^60.
    #[error("there are too many tasks and steps")]
    TooMany(Vec<Step>),
    /// There was no memory.
    #[error("no memory")]
    NoMemory(Vec<Step>),
}

// The steps are not shown.
impl fmt::Debug for AddFault {
    fn fmt<O: fmt::Write>(&self, f: &mut fmt::Formatter<O>) -> fmt::Result {
        match self {
            AddFault::Unknown { step, .. } => write!(f, "Unknown {{ step: {step}, .. }}"),
            AddFault::TooMany(_) => f.write_str("TooMany(..)"),
            AddFault::NoMemory(_) => f.write_str("NoMemory(..)"),
        }
    }
}
