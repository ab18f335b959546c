use crate::{across, alone, channels, handover, sending, shots, tasks};
use mea_bench_waits::{Fault, gathered, keeping, threads};
use std::random::RandomSource;
use std::sync::Wait;
use std::thread::Threads;
use std::time::{Clock, Instant};

/// What is done in rounds.
#[derive(Clone, Copy)]
pub enum Work {
    /// A permit is taken and given back.
    Permits,
    /// A mutex is locked and let go.
    Locks,
    /// A mutex of std is locked and let go.
    StdLocks,
    /// Two threads take a mutex from each other.
    Handovers,
    /// Two threads take a mutex of std from each other.
    StdHandovers,
    /// Messages go through a bounded channel from one thread to another.
    OneSender,
    /// Messages go through a bounded channel from four threads to another.
    FourSenders,
    /// Messages that each of a hundred receivers hears: a round is one that one has heard.
    Broadcasts,
    /// A full cell is looked at.
    Looks,
    /// A oneshot channel without a lock, from its making to its end.
    Shots,
    /// A oneshot channel with a lock, from its making to its end.
    LockedShots,
    /// A message through a oneshot channel without a lock, from one thread to another.
    ShotsAcross,
    /// A message through a oneshot channel with a lock, from one thread to another.
    LockedShotsAcross,
    /// Two tasks of one pool hand a permit to each other.
    TaskPermits,
    /// The same with the semaphore of tokio.
    TokioPermits,
    /// Messages go through a bounded channel from one task to another of its pool.
    TaskMessages,
    /// The same with the channel of tokio.
    TokioMessages,
    /// Four threads hold a reader-writer lock in turn, of which one writes.
    ReadLocks,
    /// Two threads take turns by a condition variable.
    Turns,
    /// A hundred await a latch: a round is one that has waited.
    Latches,
    /// A hundred keys wait for one permit: a round is one that has had it.
    Admissions,
    /// Eight callers share a call: a round is one caller.
    Flights,
    /// A map is filled by a hundred keys and read by a thousand calls: a round is one call.
    Maps,
    /// A wait beside what is ready is given up and made anew.
    GivenUp,
    /// So many wait at one condition variable, which tells all.
    Notified,
    /// So many wait for one message of a broadcast.
    Awaited,
}

/// All works, in the order in which they are done, each with its name in the report.
pub const WORKS: [(&str, Work); 26] = [
    ("permit", Work::Permits),
    ("lock", Work::Locks),
    ("lock of std", Work::StdLocks),
    ("lock between two threads", Work::Handovers),
    ("lock of std between two threads", Work::StdHandovers),
    ("message from one thread", Work::OneSender),
    ("message from four threads", Work::FourSenders),
    ("message heard by one of a hundred", Work::Broadcasts),
    ("look at a full cell", Work::Looks),
    ("oneshot", Work::Shots),
    ("oneshot with a lock", Work::LockedShots),
    ("oneshot between two threads", Work::ShotsAcross),
    (
        "oneshot with a lock between two threads",
        Work::LockedShotsAcross,
    ),
    ("permit between two tasks", Work::TaskPermits),
    ("permit of tokio between two tasks", Work::TokioPermits),
    ("message between two tasks", Work::TaskMessages),
    ("message of tokio between two tasks", Work::TokioMessages),
    ("read lock of four threads", Work::ReadLocks),
    ("turn of two threads", Work::Turns),
    ("latch awaited by one of a hundred", Work::Latches),
    ("admission of one of a hundred keys", Work::Admissions),
    ("call shared by one of eight", Work::Flights),
    ("call of a map of a hundred keys", Work::Maps),
    ("wait that is given up", Work::GivenUp),
    (
        "wait at a condition variable that tells all",
        Work::Notified,
    ),
    ("wait for a message that all hear", Work::Awaited),
];

impl Work {
    /// Whether this is the like, in std or tokio, of the work before it.
    pub fn is_beside(self) -> bool {
        matches!(
            self,
            Work::StdLocks | Work::StdHandovers | Work::TokioPermits | Work::TokioMessages
        )
    }

    /// How long so many rounds take.
    pub fn nanoseconds<R: Clock + Threads + Wait + RandomSource + AllocGlobal + Sync>(
        self,
        rt: &R,
        rounds: u64,
    ) -> Result<u128, Fault> {
        let Ok(start) = Instant::now(rt) else {
            return Err(Fault::Clock);
        };
        self.run(rt, rounds)?;
        match start.elapsed(rt) {
            Ok(elapsed) => Ok(elapsed.as_nanos()),
            Err(_) => Err(Fault::Clock),
        }
    }

    // Runs so many rounds.
    fn run<R: Threads + Wait + RandomSource + AllocGlobal + Sync>(
        self,
        rt: &R,
        rounds: u64,
    ) -> Result<(), Fault> {
        match self {
            Work::Permits => alone::permits(rt, rounds),
            Work::Locks => alone::locks(rt, rounds),
            Work::StdLocks => {
                alone::std_locks(rt, rounds);
                Ok(())
            }
            Work::Handovers => handover::locks(rt, rounds),
            Work::StdHandovers => handover::std_locks(rt, rounds),
            Work::OneSender => channels::messages(rt, rounds, 1),
            Work::FourSenders => channels::messages(rt, rounds, 4),
            Work::Broadcasts => channels::broadcasts(rt, rounds),
            Work::Looks => alone::looks(rt, rounds),
            Work::Shots => shots::shots(rt, rounds),
            Work::LockedShots => shots::locked_shots(rt, rounds),
            Work::ShotsAcross => across::shots(rt, rounds),
            Work::LockedShotsAcross => across::locked_shots(rt, rounds),
            Work::TaskPermits => tasks::permits(rt, rounds),
            Work::TokioPermits => tasks::tokio_permits(rt, rounds),
            Work::TaskMessages => sending::messages(rt, rounds),
            Work::TokioMessages => sending::tokio_messages(rt, rounds),
            Work::ReadLocks => threads::read_locks(rt, rounds),
            Work::Turns => threads::take_turns(rt, rounds),
            Work::Latches => gathered::latches(rt, rounds),
            Work::Admissions => gathered::admissions(rt, rounds),
            Work::Flights => gathered::flights(rt, rounds),
            Work::Maps => keeping::maps(rt, rounds),
            Work::GivenUp => keeping::given_up(rt, rounds),
            Work::Notified => gathered::notified(rt, rounds),
            Work::Awaited => gathered::awaited(rt, rounds),
        }
    }
}
