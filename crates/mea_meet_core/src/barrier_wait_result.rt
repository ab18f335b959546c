ghost use Rattle.std.specs.Prelude.{◌≡◌};

use std::marker::Model;

/// What a wait at a barrier answers: whether its arrival completed the round. It is seen as that.
///
/// It ports `mea`'s `BarrierWaitResult`.
#[derive(Clone, Copy, Debug, PartialEq, Eq)]
pub struct BarrierWaitResult {
    pub(crate) leads: bool,
}

impl Model for BarrierWaitResult {
    ghost use Rattle.std.specs.Prelude.{Bool};

    ghost Value = { Bool };

    ghost view = { λ r. r.leads };

    ghost inverse = { λ leads. record { leads = leads } };
}

impl BarrierWaitResult {
    /// Whether this arrival completed the round: of the arrivals of a round exactly one does. It takes no
    /// memory.
    pub fn is_leader(&self) -> bool
        ensures { result ≡ self.now }
    {
        self.leads
    }
}
