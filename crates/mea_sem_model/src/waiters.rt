ghost use Rattle.std.specs.Prelude.{◌≡◌, ℕ, ◌+◌, ◌≤◌, false, length};
ghost use Rattle.mea_events.specs.declared.sem_event.SemEvent.{SemEvent};
ghost use Rattle.mea_sem_model.specs.Hall.{Hall};
ghost use Rattle.mea_sem_model.specs.Step.{step};
ghost use Rattle.mea_sem_model.specs.Waiters.{waiters, registers};

/// An event makes at most as many wakers ready as there are futures that wait: a hall reserves that room
/// before it plays. Who is woken waits no more, and a poll alone can make one more future wait.
pub fn wakes_are_of_waiters()
    ensures most { (h : Hall) (i : ℕ) (e : SemEvent) → length (step h i e).wakes ≤ waiters h }
    ensures grows { (h : Hall) (i : ℕ) (e : SemEvent) → waiters (step h i e).hall + length (step h i e).wakes ≤ waiters h + 1 }
    ensures falls { (h : Hall) (i : ℕ) (e : SemEvent) → registers e ≡ false → waiters (step h i e).hall + length (step h i e).wakes ≤ waiters h }
{}
