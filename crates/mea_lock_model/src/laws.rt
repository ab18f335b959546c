ghost use Rattle.std.specs.Prelude.{◌≡◌, ℕ, ◌+◌, ◌≤◌, false, length};
ghost use Rattle.mea_family.specs.Family.{IsRun, RunOf, KeepsWakers, LosesNoWake};
ghost use Rattle.mea_events.specs.declared.lock_event.LockEvent.{LockEvent};
ghost use Rattle.mea_lock_model.specs.LockHall.{LockHall, registered};
ghost use Rattle.mea_lock_model.specs.Meaning.{step, registers};
ghost use Rattle.mea_lock_model.specs.Locks.{Locks};
ghost use Rattle.mea_lock_model.specs.Valid.{FitGuards, WritesAlone, OneGuard};
ghost use Rattle.mea_lock_model.specs.LockFamily.{locks_family};

/// A poll that replies `pending` places its waker; while that is placed, each further poll of the future
/// replies `pending`; and an event that takes it away, and neither polls nor ends the future, wakes it. Who
/// is neither polled nor ended lives on, and who is ended does not.
pub fn wakers_are_kept()
    ensures { KeepsWakers locks_family }
{}

/// A living future whose last poll replied `pending`, and whose next poll would reply something else, has
/// had the waker of that last poll woken since.
pub fn no_wake_is_lost()
    ensures { (run : RunOf locks_family) → IsRun locks_family run → LosesNoWake locks_family run }
{}

/// An event wakes no more wakers than were registered, registers at most one, and none but a poll registers any.
pub fn wakes_are_of_the_registered()
    ensures most { (h : LockHall) (i : ℕ) (e : LockEvent) → length (step h i e).wakes ≤ registered h }
    ensures grows { (h : LockHall) (i : ℕ) (e : LockEvent) → registered (step h i e).hall + length (step h i e).wakes ≤ registered h + 1 }
    ensures falls { (h : LockHall) (i : ℕ) (e : LockEvent) → registers e ≡ false → registered (step h i e).hall + length (step h i e).wakes ≤ registered h }
{}

/// Where the guards of each lock have no more permits than the lock has, a guard that writes is alone, and a lock
/// of one permit, as each mutex is, has one guard at the most.
pub fn a_write_is_alone()
    ensures alone { (h : Locks) → FitGuards h → WritesAlone h }
    ensures one { (h : Locks) → FitGuards h → OneGuard h }
{}
