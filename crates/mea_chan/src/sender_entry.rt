/// What a hall keeps of a sender of a bounded channel.
#[derive(Clone, Copy)]
pub struct SenderEntry {
    pub channel: u64,
    /// How many sends it has.
    pub sends: u128,
}
