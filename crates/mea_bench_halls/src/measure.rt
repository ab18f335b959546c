ghost use Rattle.std.specs.Prelude.{◌≡◌, ◌≢◌, []};

use crate::works::{Work, script_of};
use mea_events::Event;
use mea_family::Stop;
use mea_hall::Hall;
use mea_lines::event_of_line;
use std::alloc::{AllocError, Global};
use std::io;
use std::time::{Clock, Instant};

/// Why there is no report.
#[derive(Clone, Copy, Debug, PartialEq, Eq)]
pub enum Fault {
    /// The clock failed.
    Clock,
    /// A write failed.
    Write,
    /// There was no memory.
    NoMemory,
    /// A line of a work is no event.
    Bad,
    /// An event was refused: a work names something that does not live.
    Refused(Stop),
}

impl Fault {
    /// The code with which the program ends.
    pub fn code(self) -> u8
        ensures clock { self ≡ Fault.Clock → result ≡ 4 }
        ensures write { self ≡ Fault.Write → result ≡ 5 }
        ensures no_memory { self ≡ Fault.NoMemory → result ≡ 6 }
        ensures bad { self ≡ Fault.Bad → result ≡ 2 }
        ensures refused { (stop : Stop) → self ≡ Fault.Refused stop → result ≡ 1 }
    {
        match self {
            Fault::Clock => 4,
            Fault::Write => 5,
            Fault::NoMemory => 6,
            Fault::Bad => 2,
            Fault::Refused(_) => 1,
        }
    }
}

impl From<io::Error> for Fault {
    fn from(_: io::Error) -> Fault {
        Fault::Write
    }
}

impl From<AllocError> for Fault {
    fn from(_: AllocError) -> Fault {
        Fault::NoMemory
    }
}

/// How many times the events of a work are played. The least time counts.
const PLAYS: u32 = 9;

/// How long one event of the work takes, in hundredths of a nanosecond: the least of nine plays, each on a hall of its own. The
/// events are made before, and each wake is taken. While the clock runs no hall is made and none is dropped.
pub fn hundredths_per_event(
    rt: &(impl Clock + AllocGlobal),
    work: &Work,
    rounds: u64,
) -> Result<u128, Fault> {
    let script = script_of(rt.alloc(), work, rounds)?;
    let events = events_of(rt.alloc(), script.as_str())?;
    let mut least = u128::MAX;
    for _ in 0..PLAYS {
        let nanoseconds = nanoseconds_of_play(rt, Hall::new(rt.alloc()), events.as_slice())?;
        least = least.min(nanoseconds);
    }
    Ok(least.saturating_mul(100) / events.len().max(1) as u128)
}

fn events_of(alloc: Global, script: &str) -> Result<Vec<Event>, Fault> {
    let mut events = Vec::new(alloc);
    for line in script.lines() {
        match event_of_line(line.as_bytes()) {
            Some(event) => events.extend_from_slice(&[event])?,
            None => return Err(Fault::Bad),
        }
    }
    Ok(events)
}

/// What plays events one after another. Halls are dropped behind a type parameter, where no proof takes their types apart.
trait Player: Drop {
    /// Holds of one that has played nothing.
    ghost is_new: { Self → Type 0 };

    /// Plays the events, and takes each wake.
    fn play(&mut self, events: &[Event]) -> Result<(), Fault>
        requires { is_new self.old };
}

impl Player for Hall {
    ghost is_new = { λ hall. hall.events ≡ 0 };

    fn play(&mut self, events: &[Event]) -> Result<(), Fault> {
        for event in events {
            match self.act(event) {
                Ok(_) => drain(self),
                Err(Stop::NoMemory) => return Err(Fault::NoMemory),
                Err(stop) => return Err(Fault::Refused(stop)),
            }
        }
        Ok(())
    }
}

// How long it takes to play the events. The player is dropped after the clock was read.
fn nanoseconds_of_play<P: Player>(
    rt: &impl Clock,
    mut player: P,
    events: &[Event],
) -> Result<u128, Fault>
    requires { P.is_new player }
{
    let Ok(start) = Instant::now(rt) else {
        return Err(Fault::Clock);
    };
    player.play(events)?;
    match start.elapsed(rt) {
        Ok(elapsed) => Ok(elapsed.as_nanos()),
        Err(_) => Err(Fault::Clock),
    }
}

fn drain(hall: &mut Hall)
    ensures { hall.new ≡ record hall.old { wakes = [] } }
{
    while hall.next_wake().is_some() {}
}
