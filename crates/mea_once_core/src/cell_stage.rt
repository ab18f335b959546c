ghost use Rattle.std.specs.Prelude.{◌≡◌};

use mea_sem_core::Acquire;

/// How far a call is that computes a value, or has one, for a cell. It belongs to the cell that has polled
/// it.
#[derive(Clone, Copy, Debug, PartialEq, Eq, Drop)]
pub enum CellStage {
    /// Never polled.
    New,
    /// It waits for the cell's permit, or its turn has come since, under this number of the cell.
    Queued { number: usize },
    /// It has the permit, and its initialiser has answered nothing yet.
    Running,
    /// It was ready.
    Done,
}

impl CellStage {
    ghost use Rattle.mea_once_core.specs.Permit.{acquire_of, stage_of};

    // The acquire of one permit that stands for a call at this stage.
    pub(crate) fn acquire(self) -> Acquire
        ensures { result ≡ acquire_of self }
    {
        match self {
            CellStage::New => Acquire::New { demand: 1 },
            CellStage::Queued { number } => Acquire::Queued { demand: 1, number },
            CellStage::Running | CellStage::Done => Acquire::Done { demand: 1 },
        }
    }

    // The stage of a call whose acquire is at this stage.
    pub(crate) fn after(acquire: Acquire) -> Self
        ensures { result ≡ stage_of acquire }
    {
        match acquire {
            Acquire::New { .. } => CellStage::New,
            Acquire::Queued { number, .. } => CellStage::Queued { number },
            Acquire::Done { .. } => CellStage::Running,
            Acquire::Refused { .. } => CellStage::Done,
        }
    }
}
