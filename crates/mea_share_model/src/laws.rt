ghost use Rattle.std.specs.Prelude.{◌≡◌, ℕ, ◌+◌, ◌≤◌, false, length};
ghost use Rattle.mea_family.specs.Family.{IsRun, RunOf, KeepsWakers, LosesNoWake};
ghost use Rattle.mea_events.specs.declared.share_event.ShareEvent.{ShareEvent};
ghost use Rattle.mea_share_model.specs.Admissions.{ShareHall, registered};
ghost use Rattle.mea_share_model.specs.Meaning.{step, registers};
ghost use Rattle.mea_share_model.specs.ShareFamily.{shares_family};
ghost use Rattle.mea_share_model.specs.Valid.{AreValid};
ghost use Rattle.mea_share_model.specs.Order.{IsInOrder};
ghost use Rattle.mea_share_model.specs.Settled.{AreSettled};

/// A poll that replies `pending` places its waker; while that is placed, each further poll of the future
/// replies `pending`; and an event that takes it away, and neither polls nor ends the future, wakes it. Who
/// is neither polled nor ended lives on, and who is ended does not.
pub fn wakers_are_kept()
    ensures { KeepsWakers shares_family }
{}

/// A living future whose last poll replied `pending`, and whose next poll would reply something else, has
/// had the waker of that last poll woken since.
pub fn no_wake_is_lost()
    ensures { (run : RunOf shares_family) → IsRun shares_family run → LosesNoWake shares_family run }
{}

/// An event wakes no more wakers than were registered, registers at most one, and none but a poll registers any.
pub fn wakes_are_of_the_registered()
    ensures most { (h : ShareHall) (i : ℕ) (e : ShareEvent) → length (step h i e).wakes ≤ registered h }
    ensures grows { (h : ShareHall) (i : ℕ) (e : ShareEvent) → registered (step h i e).hall + length (step h i e).wakes ≤ registered h + 1 }
    ensures falls { (h : ShareHall) (i : ℕ) (e : ShareEvent) → registers e ≡ false → registered (step h i e).hall + length (step h i e).wakes ≤ registered h }
{}

/// In every run a future that was polled has its number at its key, alone, and as many permits of a key live as there
/// are.
pub fn halls_are_valid()
    ensures { (run : RunOf shares_family) → IsRun shares_family run → AreValid run.hall }
{}

/// The order of grants: an event wakes nobody, or one, which it admits. That one waited, and of all that waited just
/// before none had a key that held less for its weight, by cross products, or as much and had waited longer.
pub fn grants_are_in_order()
    ensures { (h : ShareHall) (i : ℕ) (e : ShareEvent) → IsInOrder h (step h i e) }
{}

/// In every run, at each admission, no permit is free while anyone waits.
pub fn nobody_waits_beside_a_free_permit()
    ensures { (run : RunOf shares_family) → IsRun shares_family run → AreSettled run.hall }
{}
