ghost use Rattle.std.specs.Prelude.{◌≡◌, None, Some, if◌then◌else◌};
ghost use Rattle.mea_family.specs.Causes.{unknown_unless};

use mea_base::NoMemory;
use std::alloc::AllocFailed;
use std::error::Error;
use std::fmt;

/// Why an event is refused. A refused event changes nothing.
#[derive(Clone, Copy, Debug, PartialEq, Eq)]
pub enum Stop {
    /// A name of the event is not a living thing of its kind.
    Unknown,
    /// Something that borrows the thing still lives.
    Borrowed,
    /// A capacity, or a number of readers or permits, that has to be above 0.
    Zero,
    /// A count would pass its greatest value.
    Overflow,
    /// There was no memory: the one answer that has no cause in the script.
    NoMemory,
}

impl fmt::Display for Stop {
    fn fmt<O: fmt::Write>(&self, f: &mut fmt::Formatter<O>) -> fmt::Result {
        f.write_str(match self {
            Stop::Unknown => "no living thing has this name",
            Stop::Borrowed => "something borrows it",
            Stop::Zero => "a number has to be above 0",
            Stop::Overflow => "a count is at its end",
            Stop::NoMemory => "out of memory",
        })
    }
}

impl Error for Stop {}

impl From<NoMemory> for Stop {
    ghost use Rattle.mea_family.specs.declared.stop.Stop.TheVariants as stops;

    ghost from_gives = { λ _ stop. stop ≡ stops.NoMemory };

    fn from(_error: NoMemory) -> Stop {
        Stop::NoMemory
    }
}

impl<T: Drop> From<AllocFailed<T>> for Stop {
    ghost use Rattle.mea_family.specs.declared.stop.Stop.TheVariants as stops;

    ghost from_gives = { λ _ stop. stop ≡ stops.NoMemory };

    fn from(_failed: AllocFailed<T>) -> Stop {
        Stop::NoMemory
    }
}

/// The cause of an event that names something: that it is unknown, unless it is known.
pub fn unknown_unless(known: bool) -> Option<Stop>
    ensures { result ≡ unknown_unless known }
{
    if known { None } else { Some(Stop::Unknown) }
}

/// The cause of an event that needs a thing which nothing borrows: that something does, where it does.
pub fn borrowed_if(borrowed: bool) -> Option<Stop>
    ensures { result ≡ (if borrowed then Some Stop.Borrowed else None) }
{
    if borrowed { Some(Stop::Borrowed) } else { None }
}

/// The cause of an event that gives a number above 0: that it is 0, where it is.
pub fn zero_if(zero: bool) -> Option<Stop>
    ensures { result ≡ (if zero then Some Stop.Zero else None) }
{
    if zero { Some(Stop::Zero) } else { None }
}

/// The cause of an event that counts one more: that the count has no room for it, where it has none.
pub fn overflow_if(full: bool) -> Option<Stop>
    ensures { result ≡ (if full then Some Stop.Overflow else None) }
{
    if full { Some(Stop::Overflow) } else { None }
}
