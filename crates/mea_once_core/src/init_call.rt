ghost use Rattle.std.specs.Prelude.{◌≡◌};

use crate::cell_stage::CellStage;

/// The future of a computation for a cell: an initialiser, and how far its call is.
///
/// It may be dropped without its ending call: its cell then stays as it is. It ports the futures of
/// `mea::once::Once::call_once` and `mea::once::OnceCell::get_or_try_init`.
#[derive(Drop)]
pub struct InitCall<I> {
    /// What computes the value.
    pub init: I,
    /// How far the call is.
    pub stage: CellStage,
}

impl<I> InitCall<I> {
    ghost use Rattle.mea_once_core.specs.Cell.{renewed_init};

    /// A call that was never polled. It takes no memory.
    pub fn new(init: I) -> Self
        ensures { result ≡ record { init = init; stage = CellStage.New } }
    {
        InitCall {
            init,
            stage: CellStage::New,
        }
    }

    /// Makes it one that was never polled, with the same initialiser. It takes no memory.
    pub fn renew(&mut self)
        ensures { self.new ≡ renewed_init self.old }
    {
        self.stage = CellStage::New;
    }
}
