ghost use Rattle.std.specs.Prelude.{◌≡◌};
ghost use Rattle.mea_script.specs.Runs.{code_of};

use mea_family::Stop;

/// How a run ended.
#[derive(Clone, Copy, Debug, PartialEq, Eq)]
pub enum Status {
    /// Every line was played.
    Done,
    /// The line of this number was refused for a cause, which is never want of memory.
    Stopped { at: u64, cause: Stop },
    /// The line of this number is no event line.
    BadLine { at: u64 },
    /// There was more input than is read.
    TooLong,
    /// A read failed.
    ReadFault,
    /// A write failed.
    WriteFault,
    /// There was no memory.
    NoMemory,
    /// The words of the command line are not those of the program. Nothing was read or written.
    Usage,
}

impl Status {
    /// The code with which the program ends. It takes no memory.
    pub fn code(&self) -> u8
        ensures { result ≡ code_of self.now }
    {
        match self {
            Status::Done => 0,
            Status::Stopped { .. } => 1,
            Status::BadLine { .. } => 2,
            Status::TooLong => 3,
            Status::ReadFault => 4,
            Status::WriteFault => 5,
            Status::NoMemory => 6,
            Status::Usage => 7,
        }
    }
}
