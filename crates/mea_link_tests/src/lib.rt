//! Tests of the meeting points and the channels that threads share, by public contracts alone: each call once, its answer and the
//! wakers that it woke; waits that ended, which leave nothing behind; messages whose drop needs their own channel; and runs of
//! several threads. It has no code but tests.
#![tactic(auto)]

#[cfg(test)]
mod channels;
#[cfg(test)]
mod counts;
#[cfg(test)]
mod drops;
#[cfg(test)]
mod ended_waits;
#[cfg(test)]
mod link_threads;
#[cfg(test)]
mod meeting_points;
