ghost use Rattle.std.specs.Prelude.{◌≡◌, ℕ, ◌+◌, None};
ghost use Rattle.mea_events.specs.declared.sem_event.SemEvent.{SemEvent};
ghost use Rattle.mea_sem_model.specs.Hall.{Hall, empty_hall};
ghost use Rattle.mea_sem_model.specs.Cause.{cause_of};
ghost use Rattle.mea_sem_model.specs.Step.{step};
ghost use Rattle.mea_sem_model.specs.Runs.{Run, IsSemRun, AllFit};
ghost use Rattle.mea_sem_model.specs.Valid.{IsValid, IsBelow, IsAccounted, Fits};

/// The empty hall is valid, and each event that has no cause for refusal leaves a valid hall valid.
pub fn validity_is_kept()
    ensures empty { IsValid empty_hall }
    ensures event { (h : Hall) (i : ℕ) (e : SemEvent) → IsValid h → IsBelow h i → Fits e → cause_of h e ≡ None → IsValid (step h i e).hall }
{}

/// Every hall in a run is valid, where the permits that its events make fit their type.
pub fn halls_are_valid()
    ensures { (run : Run) → IsSemRun run → AllFit run.trace → IsValid run.hall }
{}

/// The names of a hall stay below the number of the next event, so that each event makes a new name.
pub fn names_stay_below()
    ensures empty { IsBelow empty_hall 0 }
    ensures event { (h : Hall) (i : ℕ) (e : SemEvent) → IsValid h → IsBelow h i → cause_of h e ≡ None → IsBelow (step h i e).hall (i + 1) }
{}

/// The tallies that a semaphore keeps account for its permits, after each event as before it.
pub fn tallies_account()
    ensures empty { (s : ℕ) → IsAccounted empty_hall s }
    ensures event { (h : Hall) (i : ℕ) (e : SemEvent) → IsValid h → IsBelow h i → cause_of h e ≡ None → ((s : ℕ) → IsAccounted h s) → (s : ℕ) → IsAccounted (step h i e).hall s }
{}
