use crate::table_core::ScriptedCall;

/// What a hall keeps of a future by key: its map or group, its key, the round of which it is a caller, if it is one, and the
/// call of the core.
#[derive(Drop)]
pub struct KeyFuture {
    pub table: u64,
    pub key: u64,
    pub round: Option<u64>,
    pub call: ScriptedCall,
}
