use mea_broadcast_core::Cursor;

/// What a hall keeps of a receiver of a broadcast channel.
#[derive(Drop)]
pub struct ListenerEntry {
    pub channel: u64,
    pub cursor: Cursor,
    /// The future that uses it alone.
    pub user: Option<u64>,
}
