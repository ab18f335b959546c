/// What a hall keeps of a guard.
#[derive(Clone, Copy)]
pub struct GuardEntry {
    pub lock: u64,
    pub plain: bool,
    pub writes: bool,
}
