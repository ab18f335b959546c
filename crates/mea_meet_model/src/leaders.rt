ghost use Rattle.std.specs.Prelude.{◌≡◌, ℕ, ◌+◌, ◌≤◌, true, Some, IsSome};
ghost use Rattle.std.specs.FinMap as finmap;
ghost use Rattle.mea_events.specs.declared.meet_event.MeetEvent.{MeetEvent as Event};
ghost use Rattle.mea_events.specs.declared.meet_event.MeetEvent.TheVariants as events;
ghost use Rattle.mea_by_name.specs.NamedQueue.{wakers};
ghost use Rattle.mea_meet_model.specs.Barriers.{Barrier, BarrierWait, barrier_at};
ghost use Rattle.mea_meet_model.specs.Hall.{Hall};
ghost use Rattle.mea_meet_model.specs.Step.{step};
ghost use Rattle.mea_meet_model.specs.Leaders.{is_leader, leads_by, arrivals_by, leaders};
ghost use Rattle.mea_meet_model.specs.Valid.{IsValid};

/// An event replies `leader` exactly where it polls a new future of a barrier whose arrivals it brings to a
/// multiple of the size, and then it wakes all who are registered there. A first poll is one arrival at the
/// barrier of its future and nothing else is any, so that of as many consecutive arrivals as make a round
/// exactly one leads.
pub fn a_round_has_one_leader()
    ensures exactly { (h : Hall) (i : ℕ) (e : Event) → is_leader (step h i e).reply ≡ leads_by h e }
    ensures wakes { (h : Hall) (i f w : ℕ) (x : BarrierWait) → finmap.get h.barriers.waits f ≡ Some x → leads_by h (events.BarPoll f w) ≡ true
        → (step h i (events.BarPoll f w)).wakes ≡ wakers (barrier_at h.barriers x.barrier).waiting }
    ensures arrives { (h : Hall) (n i : ℕ) (e : Event) → IsValid h n → n ≤ i → (b : ℕ) → IsSome (finmap.get h.barriers.barriers b)
        → IsSome (finmap.get (step h i e).hall.barriers.barriers b)
        → (barrier_at (step h i e).hall.barriers b).arrivals ≡ (barrier_at h.barriers b).arrivals + arrivals_by h e b }
    ensures one { (r : Barrier) → 1 ≤ r.size → leaders r r.size ≡ 1 }
{}
