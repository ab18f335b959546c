ghost use Rattle.std.specs.Prelude.{◌≡◌};
ghost use Rattle.mea_lock.specs.Accesses.{writes};

/// What a guard may do with the value of its lock.
#[derive(Clone, Copy)]
pub enum Access {
    /// It reads it, beside others that read.
    Read,
    /// It reads and writes it, alone.
    Write,
}

impl Access {
    /// Whether it writes.
    pub fn writes(self) -> bool
        ensures { result ≡ writes self }
    {
        match self {
            Access::Read => false,
            Access::Write => true,
        }
    }
}
