ghost use Rattle.std.specs.Prelude.{◌≡◌, ℕ, ◌≤◌, IsSome};
ghost use Rattle.std.specs.FinMap as finmap;
ghost use Rattle.mea_events.specs.declared.meet_event.MeetEvent.{MeetEvent as Event};
ghost use Rattle.mea_meet_model.specs.Counts.{End, point_at, count_at};
ghost use Rattle.mea_meet_model.specs.Hall.{Hall};
ghost use Rattle.mea_meet_model.specs.Step.{step};
ghost use Rattle.mea_meet_model.specs.Valid.{IsValid};

/// A count that has ended stays so: of a latch, of a group, and of a shutdown's signal and its receivers
/// while the shutdown is there. Who waits for it is ready from then on.
pub fn an_ended_count_stays_ended()
    ensures latches { (h : Hall) (n i : ℕ) (e : Event) → IsValid h n → n ≤ i → (l : ℕ) → IsSome (finmap.get h.latches.points l)
        → (point_at h.latches l).signal.number ≡ 0 → (point_at (step h i e).hall.latches l).signal.number ≡ 0 }
    ensures groups { (h : Hall) (n i : ℕ) (e : Event) → IsValid h n → n ≤ i → (g : ℕ) → IsSome (finmap.get h.groups.points g)
        → (point_at h.groups g).members.number ≡ 0 → (point_at (step h i e).hall.groups g).members.number ≡ 0 }
    ensures shutdowns { (h : Hall) (n i : ℕ) (e : Event) → IsValid h n → n ≤ i → (s : ℕ) (a : End) → IsSome (finmap.get h.shutdowns.points s)
        → IsSome (finmap.get (step h i e).hall.shutdowns.points s) → (count_at a (point_at h.shutdowns s)).number ≡ 0
        → (count_at a (point_at (step h i e).hall.shutdowns s)).number ≡ 0 }
{}
