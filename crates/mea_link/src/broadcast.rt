//! A broadcast channel for threads and tasks to share: `mea::broadcast`.
pub mod overflow;
