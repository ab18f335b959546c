ghost use Rattle.std.specs.Prelude.{◌≡◌};
ghost use Rattle.mea_once_model.specs.Cells.{init_of, is_open};
ghost use Rattle.mea_once.specs.Cores.{answer_of};

use crate::errands::outcome;
use mea_base::Poll;
use mea_by_name::NamedWaker;
use mea_once_core::Init;
use mea_once_model::{Errand, Initialiser};

/// The initialiser of a future in a script: it is pending until a line settles it. The waker of its last poll stays with its
/// cell, where that line finds it.
#[derive(Clone, Copy, Drop)]
pub struct Scripted {
    outcome: Initialiser,
}

impl Scripted {
    /// That of a future that does this.
    pub fn new(errand: Errand) -> Self
        ensures { result.outcome ≡ init_of errand }
    {
        Scripted {
            outcome: outcome(errand),
        }
    }

    /// One that is not settled.
    pub fn unsettled() -> Self
        ensures { result.outcome ≡ Initialiser.Unsettled }
    {
        Scripted {
            outcome: Initialiser::Unsettled,
        }
    }

    /// Whether it is not settled.
    pub fn is_unsettled(&self) -> bool
        ensures { result ≡ is_open self.now.outcome }
    {
        match self.outcome {
            Initialiser::Unsettled => true,
            _ => false,
        }
    }

    /// It comes to this.
    pub fn settle(&mut self, outcome: Initialiser)
        ensures { self.new.outcome ≡ outcome }
    {
        self.outcome = outcome;
    }
}

impl Init<u64, u64, NamedWaker> for Scripted {
    ghost answers = { λ i w answer i'. (answer ≡ answer_of i.outcome) × (i' ≡ i) };

    fn poll(&mut self, _waker: NamedWaker) -> Poll<Result<u64, u64>> {
        match self.outcome {
            Initialiser::Unsettled => Poll::Pending,
            Initialiser::Gives(value) => Poll::Ready(Ok(value)),
            Initialiser::Fails(error) => Poll::Ready(Err(error)),
        }
    }
}
