use mea_meet_core::LatchWait;
use mea_once_core::CellStage;
use mea_once_model::Errand;

/// What a hall keeps of a future: its cell, what it does there, how far it is with its turn, and its place among those who
/// wait until the cell is full.
#[derive(Drop)]
pub struct FutureEntry {
    pub cell: u64,
    pub errand: Errand,
    pub stage: CellStage,
    pub wait: LatchWait,
}
