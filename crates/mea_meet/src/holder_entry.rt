/// What a hall keeps of a holder: the name of a latch, a handle of a group, a receiver or a watch of a shutdown.
#[derive(Clone, Copy)]
pub struct HolderEntry {
    pub point: u64,
    /// Whether it is counted among the members.
    pub counted: bool,
    /// How many plain futures borrow it.
    pub borrowers: u128,
}
