ghost use Rattle.std.specs.Prelude.{◌<◌};

/// How much a queued key holds, its weight, the number of its oldest waiter, and which group it is.
#[derive(Clone, Copy, PartialEq, Eq)]
pub struct Rank {
    pub held: usize,
    pub weight: u64,
    pub sequence: u64,
    pub group: usize,
    ghost positive: { 0 < weight },
}
