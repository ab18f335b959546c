ghost use Rattle.std.specs.Prelude.{◌≡◌};
ghost use Rattle.mea_named_run.specs.Program.{code_of};

use mea_counted::Missing;

/// How a run of the program ended.
#[derive(Clone, Copy, Debug, Drop, PartialEq, Eq)]
pub enum NamedStatus {
    /// The three lines were written.
    Done,
    /// A write failed.
    WriteFault,
    /// There was no memory.
    NoMemory,
    /// The words of the command line are not those of the program. Nothing was written.
    Usage,
    /// Not all parts of the ledger came back. Nothing was written.
    Missing(Missing),
}

impl NamedStatus {
    /// The code with which the program ends. It takes no memory.
    pub fn code(&self) -> u8
        ensures { result ≡ code_of self.now }
    {
        match self {
            NamedStatus::Done => 0,
            NamedStatus::WriteFault => 5,
            NamedStatus::NoMemory => 6,
            NamedStatus::Usage => 7,
            NamedStatus::Missing(_) => 8,
        }
    }
}
