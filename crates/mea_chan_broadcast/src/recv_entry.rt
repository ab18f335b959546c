use mea_broadcast_core::RecvWait;

/// What a hall keeps of a future of a broadcast channel.
#[derive(Drop)]
pub struct RecvEntry {
    pub receiver: u64,
    pub channel: u64,
    pub wait: RecvWait,
}
