ghost use Rattle.std.specs.Prelude.{◌≡◌};
ghost use Rattle.mea_marks.specs.Sorts.{code_of, word_of, is_lasting};

/// What a row is of: an object, or a thing that may wait at one.
#[derive(Clone, Copy)]
pub enum Sort {
    /// A semaphore.
    Semaphore,
    /// A barrier.
    Barrier,
    /// A latch.
    Latch,
    /// A wait group.
    WaitGroup,
    /// A shutdown.
    Shutdown,
    /// A mutex.
    Mutex,
    /// A reader-writer lock.
    RwLock,
    /// A condition variable.
    Condvar,
    /// A bounded channel.
    Bounded,
    /// A channel without a bound.
    Unbounded,
    /// An oneshot channel.
    Oneshot,
    /// A broadcast channel.
    Broadcast,
    /// A box.
    AtomicBox,
    /// A box that may be empty.
    OptionBox,
    /// A fair admission.
    Admission,
    /// A call that runs once.
    Call,
    /// A cell.
    Cell,
    /// A map that computes its values once.
    Map,
    /// A group of single flight.
    Flight,
    /// An acquire of a semaphore.
    Acquire,
    /// A wait at a barrier.
    Arrival,
    /// A wait for a latch.
    LatchWait,
    /// A wait for a wait group.
    GroupWait,
    /// A wait for a shutdown.
    Signal,
    /// A wait for a mutex.
    Lock,
    /// A wait for a read or a write.
    Access,
    /// A wait on a condition variable.
    CondvarWait,
    /// A send of a bounded channel.
    Send,
    /// The receiver of a bounded channel.
    BoundedReceive,
    /// The receiver of a channel without a bound.
    Receive,
    /// A receive of a oneshot.
    OneshotReceive,
    /// A receive of a broadcast channel.
    Hear,
    /// An acquire of an admission.
    Admit,
    /// A caller of a call that runs once.
    CallWait,
    /// A caller of a cell.
    CellWait,
    /// A caller of a map.
    MapWait,
    /// A caller of a single flight.
    FlightWait,
}

impl Sort {
    /// A number of its own.
    #[tactic(auto, unfolding(crate::specs::Sorts::code_of))]
    pub fn code(self) -> u8
        ensures { result ≡ code_of self }
    {
        match self {
            Sort::Semaphore => 0,
            Sort::Barrier => 1,
            Sort::Latch => 2,
            Sort::WaitGroup => 3,
            Sort::Shutdown => 4,
            Sort::Mutex => 5,
            Sort::RwLock => 6,
            Sort::Condvar => 7,
            Sort::Bounded => 8,
            Sort::Unbounded => 9,
            Sort::Oneshot => 10,
            Sort::Broadcast => 11,
            Sort::AtomicBox => 12,
            Sort::OptionBox => 13,
            Sort::Admission => 14,
            Sort::Call => 15,
            Sort::Cell => 16,
            Sort::Map => 17,
            Sort::Flight => 18,
            Sort::Acquire => 19,
            Sort::Arrival => 20,
            Sort::LatchWait => 21,
            Sort::GroupWait => 22,
            Sort::Signal => 23,
            Sort::Lock => 24,
            Sort::Access => 25,
            Sort::CondvarWait => 26,
            Sort::Send => 27,
            Sort::BoundedReceive => 28,
            Sort::Receive => 29,
            Sort::OneshotReceive => 30,
            Sort::Hear => 31,
            Sort::Admit => 32,
            Sort::CallWait => 33,
            Sort::CellWait => 34,
            Sort::MapWait => 35,
            Sort::FlightWait => 36,
        }
    }

    /// Its name in a picture.
    #[tactic(auto, unfolding(crate::specs::Sorts::word_of))]
    pub fn word(self) -> &'static [u8]
        ensures { result.now ≡ word_of self }
    {
        match self {
            Sort::Semaphore => b"semaphore",
            Sort::Barrier => b"barrier",
            Sort::Latch => b"latch",
            Sort::WaitGroup => b"wait group",
            Sort::Shutdown => b"shutdown",
            Sort::Mutex => b"mutex",
            Sort::RwLock => b"lock",
            Sort::Condvar => b"condition variable",
            Sort::Bounded => b"bounded channel",
            Sort::Unbounded => b"channel",
            Sort::Oneshot => b"oneshot",
            Sort::Broadcast => b"broadcast",
            Sort::AtomicBox => b"box",
            Sort::OptionBox => b"option box",
            Sort::Admission => b"admission",
            Sort::Call => b"call",
            Sort::Cell => b"cell",
            Sort::Map => b"map",
            Sort::Flight => b"group",
            Sort::Acquire => b"acquire",
            Sort::Arrival => b"arrival",
            Sort::LatchWait => b"wait",
            Sort::GroupWait => b"wait",
            Sort::Signal => b"wait",
            Sort::Lock => b"lock",
            Sort::Access => b"access",
            Sort::CondvarWait => b"wait",
            Sort::Send => b"send",
            Sort::BoundedReceive => b"receiver",
            Sort::Receive => b"receiver",
            Sort::OneshotReceive => b"receive",
            Sort::Hear => b"receive",
            Sort::Admit => b"acquire",
            Sort::CallWait => b"caller",
            Sort::CellWait => b"caller",
            Sort::MapWait => b"caller",
            Sort::FlightWait => b"caller",
        }
    }

    /// Whether it lives on after a poll that was answered: a receiver, which may wait again.
    pub fn is_lasting(self) -> bool
        ensures { result ≡ is_lasting self }
    {
        match self {
            Sort::BoundedReceive | Sort::Receive | Sort::OneshotReceive => true,
            _ => false,
        }
    }
}
