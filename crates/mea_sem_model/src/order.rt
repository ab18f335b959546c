ghost use Rattle.mea_sem_model.specs.Runs.{Run, IsSemRun};
ghost use Rattle.mea_sem_model.specs.Order.{GrantsInOrder, WakesInOrder, LetsNobodyPast};

/// After every run: of two acquires of one semaphore that were polled, whoever was first polled first has
/// got its permits or was ended, where the other, which asks for at least one, has got its own. Each event
/// wakes whom it grants in the order of their first polls, and grants only where no debt is left. While one
/// waits no try gets a permit.
pub fn grants_follow_first_polls()
    ensures order { (run : Run) → IsSemRun run → GrantsInOrder run }
    ensures wakes { (run : Run) → IsSemRun run → WakesInOrder run }
    ensures tries { (run : Run) → IsSemRun run → LetsNobodyPast run }
{}
