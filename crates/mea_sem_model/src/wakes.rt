ghost use Rattle.mea_family.specs.Family.{IsRun, KeepsWakers, LosesNoWake};
ghost use Rattle.mea_sem_model.specs.Runs.{Run, semaphores};

/// A poll that replies `pending` places its waker; while that is placed, each further poll of the future
/// replies `pending`; and an event that takes it away, and neither polls nor ends the future, wakes it.
pub fn wakers_are_kept()
    ensures { KeepsWakers semaphores }
{}

/// A living future whose last poll replied `pending`, and whose next poll would reply something else, has
/// had the waker of that last poll woken since.
pub fn no_wake_is_lost()
    ensures { (run : Run) → IsRun semaphores run → LosesNoWake semaphores run }
{}
