ghost use Rattle.std.specs.Prelude.{ℕ, ◌≡◌, ◌+◌, ◌≤◌, length, false};
ghost use Rattle.mea_events.specs.declared.meet_event.MeetEvent.{MeetEvent as Event};
ghost use Rattle.mea_meet_model.specs.Hall.{Hall, registered};
ghost use Rattle.mea_meet_model.specs.Step.{step, registers};

/// An event wakes no more wakers than were registered, registers at most one, and none but a poll registers any.
/// A hall keeps room for the registered ones, so that to wake them takes no memory.
pub fn wakes_are_of_the_registered()
    ensures most { (h : Hall) (i : ℕ) (e : Event) → length (step h i e).wakes ≤ registered h }
    ensures grows { (h : Hall) (i : ℕ) (e : Event) → registered (step h i e).hall + length (step h i e).wakes ≤ registered h + 1 }
    ensures falls { (h : Hall) (i : ℕ) (e : Event) → registers e ≡ false → registered (step h i e).hall + length (step h i e).wakes ≤ registered h }
{}
