ghost use Rattle.std.specs.Prelude.{◌≡◌};

use crate::cell_stage::CellStage;

/// The future of putting a value into a cell: the value, until it was put or handed back, and how far the
/// call is.
///
/// It may be dropped without its ending call: its cell then stays as it is. It ports the futures of
/// `mea::once::OnceCell::set` and `try_insert`.
#[derive(Drop)]
pub struct InsertCall<T> {
    /// The value, until a poll was ready.
    pub value: Option<T>,
    /// How far the call is.
    pub stage: CellStage,
}

impl<T> InsertCall<T> {
    ghost use Rattle.mea_once_core.specs.Cell.{renewed_insert};

    /// A call that was never polled. It takes no memory.
    pub fn new(value: T) -> Self
        ensures { result ≡ record { value = Some value; stage = CellStage.New } }
    {
        InsertCall {
            value: Some(value),
            stage: CellStage::New,
        }
    }

    /// Makes it one that was never polled, with the same value; one whose value is gone stays as it is. It
    /// takes no memory.
    pub fn renew(&mut self)
        ensures { self.new ≡ renewed_insert self.old }
    {
        if self.value.is_some() {
            self.stage = CellStage::New;
        }
    }
}
