ghost use Rattle.mea_family.specs.Family.{IsRun};
ghost use Rattle.mea_sem_model.specs.Runs.{semaphores};
ghost use Rattle.mea_recorded.specs.History.{History, IsHistory, run_of};

/// A history is a run of the queue model, so that every law of its runs holds of it: permits balance, no wake is lost,
/// and grants follow first polls. It does nothing.
pub fn a_history_is_a_run()
    ensures { (h : History) → IsHistory h → IsRun semaphores (run_of h.events) }
{}
