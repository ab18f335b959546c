ghost use Rattle.std.specs.Prelude.{◌≡◌};

use mea::{HandleFault, NoMemory};
use std::alloc::AllocError;
use std::io;

/// Why there is no report.
#[derive(Clone, Copy)]
pub enum Fault {
    /// A call answered what it should not.
    Answer,
    /// The clock failed.
    Clock,
    /// A write failed.
    Write,
    /// There was no memory, or no thread.
    NoMemory,
}

impl Fault {
    /// The code with which the program ends.
    pub fn code(self) -> u8
        ensures answer { self ≡ Fault.Answer → result ≡ 1 }
        ensures clock { self ≡ Fault.Clock → result ≡ 4 }
        ensures write { self ≡ Fault.Write → result ≡ 5 }
        ensures no_memory { self ≡ Fault.NoMemory → result ≡ 6 }
    {
        match self {
            Fault::Answer => 1,
            Fault::Clock => 4,
            Fault::Write => 5,
            Fault::NoMemory => 6,
        }
    }
}

impl From<io::Error> for Fault {
    fn from(_: io::Error) -> Fault {
        Fault::Write
    }
}

impl From<AllocError> for Fault {
    fn from(_: AllocError) -> Fault {
        Fault::NoMemory
    }
}

impl From<NoMemory> for Fault {
    fn from(_: NoMemory) -> Fault {
        Fault::NoMemory
    }
}

impl From<HandleFault> for Fault {
    fn from(_: HandleFault) -> Fault {
        Fault::NoMemory
    }
}
