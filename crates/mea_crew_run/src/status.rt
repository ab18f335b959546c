ghost use Rattle.std.specs.Prelude.{◌≡◌};
ghost use Rattle.mea_crew_run.specs.Crew.{code_of};

/// How a run of a crew ended.
#[derive(Clone, Copy, Debug, Drop, PartialEq, Eq)]
pub enum CrewStatus {
    /// The four lines were written.
    Done,
    /// A write failed.
    WriteFault,
    /// There was no memory.
    NoMemory,
    /// The words of the command line are not those of the program. Nothing was written.
    Usage,
    /// The receipts and the history did not agree. Nothing was written.
    Mismatch,
    /// An event was refused for a cause. Nothing was written.
    Refused,
}

impl CrewStatus {
    /// The code with which the program ends. It takes no memory.
    pub fn code(&self) -> u8
        ensures { result ≡ code_of self.now }
    {
        match self {
            CrewStatus::Done => 0,
            CrewStatus::WriteFault => 5,
            CrewStatus::NoMemory => 6,
            CrewStatus::Usage => 7,
            CrewStatus::Mismatch => 8,
            CrewStatus::Refused => 9,
        }
    }
}
