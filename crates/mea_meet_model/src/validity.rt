ghost use Rattle.std.specs.Prelude.{◌≡◌, ℕ, ◌+◌, ◌<◌, ◌≤◌, None, IsSome, is_some};
ghost use Rattle.std.specs.FinMap as finmap;
ghost use Rattle.mea_family.specs.Family.{RunOf, IsRun};
ghost use Rattle.mea_events.specs.declared.meet_event.MeetEvent.{MeetEvent as Event};
ghost use Rattle.mea_meet_model.specs.Counts.{is_live, borrowers_of};
ghost use Rattle.mea_meet_model.specs.Hall.{Hall, empty_hall};
ghost use Rattle.mea_meet_model.specs.Cause.{cause_of};
ghost use Rattle.mea_meet_model.specs.Step.{step};
ghost use Rattle.mea_meet_model.specs.Meets.{meets};
ghost use Rattle.mea_meet_model.specs.Valid.{IsValid};

/// The empty hall is valid, and each event that has no cause for refusal, under a number that no name of
/// the hall has reached, leaves a valid hall valid. A hall that is valid under a number is so under each
/// greater one.
pub fn validity_is_kept()
    ensures empty { IsValid empty_hall 0 }
    ensures later { (h : Hall) (n m : ℕ) → IsValid h n → n ≤ m → IsValid h m }
    ensures event { (h : Hall) (n i : ℕ) (e : Event) → IsValid h n → n ≤ i → cause_of h e ≡ None → IsValid (step h i e).hall (i + 1) }
{}

/// Every hall in a run is valid.
pub fn halls_are_valid()
    ensures { (run : RunOf meets) → IsRun meets run → IsValid run.hall run.next }
{}

/// A latch is there exactly while it is named or a future of it lives, a group while a handle or a future of
/// it lives, and a shutdown while a sender, a receiver, a watch or a future of it lives.
pub fn what_is_there_lives()
    ensures latches { (h : Hall) (n : ℕ) → IsValid h n → (l : ℕ) → is_some (finmap.get h.latches.points l) ≡ is_live h.latches l }
    ensures groups { (h : Hall) (n : ℕ) → IsValid h n → (g : ℕ) → is_some (finmap.get h.groups.points g) ≡ is_live h.groups g }
    ensures shutdowns { (h : Hall) (n : ℕ) → IsValid h n → (s : ℕ) → is_some (finmap.get h.shutdowns.points s) ≡ is_live h.shutdowns s }
{}

/// A receiver or watch that a plain future borrows is there.
pub fn a_borrowed_receiver_is_there()
    ensures { (h : Hall) (n : ℕ) → IsValid h n → (r : ℕ) → 0 < borrowers_of h.shutdowns r → IsSome (finmap.get h.shutdowns.holders r) }
{}
