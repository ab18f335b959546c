ghost use Rattle.std.specs.Prelude.{◌≡◌};

/// The future of an acquire: a demand, and how far it is. It belongs to the core that has polled it.
///
/// It may be dropped without its ending call: its core then stays as it is. It ports the state of
/// `mea`'s internal `Acquire`.
#[derive(Debug, PartialEq, Eq, Drop)]
pub enum Acquire {
    /// Never polled.
    New { demand: usize },
    /// Polled and not ready then: it waits, or was granted or cut since, under this number of its core.
    Queued { demand: usize, number: usize },
    /// It was ready.
    Done { demand: usize },
    /// A closed semaphore has refused it.
    Refused { demand: usize },
}

impl Acquire {
    ghost use Rattle.mea_sem_core.specs.Acquire.{renewed};

    /// An acquire of `demand` permits that was never polled. It takes no memory.
    pub fn new(demand: usize) -> Self
        ensures { result ≡ Acquire.New demand }
    {
        Acquire::New { demand }
    }

    /// Makes it one that was never polled, with the same demand. It takes no memory.
    pub fn renew(&mut self)
        ensures { self.new ≡ renewed self.old }
    {
        match *self {
            Acquire::New { .. } => {}
            Acquire::Queued { demand, .. }
            | Acquire::Done { demand }
            | Acquire::Refused { demand } => {
                *self = Acquire::New { demand };
            }
        }
    }
}
