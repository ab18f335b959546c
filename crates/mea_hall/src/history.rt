ghost use Rattle.std.specs.Prelude.{List};
ghost use Rattle.mea_events.specs.declared.event.Event.{Event as Line};
ghost use Rattle.mea_hall.specs.Front.{front_of};
ghost use Rattle.mea_hall.specs.History.{AreBalanced, LoseNoWake, GrantInOrder};

/// After each event of every list of events that is played, and of every semaphore: the permits that were
/// made, released and are owed are those that are free, held, paid and forgotten.
pub fn permits_balance()
    ensures { (events : List Line) → AreBalanced events (front_of events).replies }
{}

/// After each event of every list of events that is played: a living future whose last poll replied
/// `pending`, and whose next poll would reply something else, has had the waker of that last poll woken
/// since.
pub fn no_wake_is_lost()
    ensures { (events : List Line) → LoseNoWake events (front_of events).replies }
{}

/// After each event of every list of events that is played, of two acquires of one semaphore: where the one
/// that was first polled later, and asks for at least one permit, has got what it asked for, the other has
/// too or was ended. Each event wakes whom it grants in that order, and grants only where no debt is left;
/// and while one waits no try gets a permit.
pub fn grants_follow_first_polls()
    ensures { (events : List Line) → GrantInOrder events (front_of events).replies }
{}
