use mea_pool_core::{DrainWait, Lease, LeaseWait};

/// What stands under a name.
#[derive(Drop)]
pub enum Thing {
    /// A wait for a lease.
    Ask(LeaseWait),
    /// A wait for the end of the drain.
    Wait(DrainWait),
    /// A lease of a number.
    Held(Lease<u64>),
}
