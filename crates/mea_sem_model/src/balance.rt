ghost use Rattle.std.specs.Prelude.{ℕ};
ghost use Rattle.mea_sem_model.specs.Runs.{Run, IsSemRun, Balances};

/// Of every semaphore, after every run: the permits that were made, released and are owed are those that
/// are free, held, paid and forgotten.
pub fn permits_balance()
    ensures { (run : Run) → IsSemRun run → (s : ℕ) → Balances run s }
{}
