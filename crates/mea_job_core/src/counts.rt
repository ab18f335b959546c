/// How many jobs were accepted, and how many of them run, are queued, were finished and were returned.
#[derive(Clone, Copy, Debug, PartialEq, Eq, Drop)]
pub struct Counts {
    pub accepted: u64,
    pub running: u64,
    pub queued: u64,
    pub finished: u64,
    pub returned: u64,
}
