ghost use Rattle.std.specs.Prelude.{◌≡◌, ℕ, ◌+◌, ◌%◌, ◌<◌, Bool, List, [], length};
ghost use Rattle.mea_sets.specs.Countdown.{Count, woken_by};
ghost use Rattle.mea_meet_core.specs.Barrier.{Barrier, round_of};
ghost use Rattle.mea_meet_core.specs.BarrierRuns.{BarrierRuns, leaders};
ghost use Rattle.mea_meet_core.specs.CountRuns.{CountRuns};

/// A latch whose count is 0 stays as it is, whatever is called, and wakes nobody any more.
pub fn a_latch_at_0_stays_there<W>()
    ensures stays { (c d : Count W) → CountRuns c d → c.number ≡ 0 → d ≡ c }
    ensures silent { (c : Count W) (n : ℕ) → c.number ≡ 0 → woken_by c n ≡ [] }
{}

/// Every barrier counts each arrival, and as many of them led as rounds were completed: a round is
/// completed by exactly as many arrivals as make one, and exactly one of these leads.
pub fn a_round_has_one_leader<W>()
    ensures counted { (b c : Barrier W) (arrivals : List Bool) → BarrierRuns b arrivals c → (c.size ≡ b.size)
        × (c.arrivals ≡ b.arrivals + length arrivals) }
    ensures led { (b c : Barrier W) (arrivals : List Bool) → BarrierRuns b arrivals c → round_of c ≡ round_of b + leaders arrivals }
    ensures round { (b c : Barrier W) (arrivals : List Bool) → BarrierRuns b arrivals c → 0 < b.size → length arrivals ≡ b.size
        → (round_of c ≡ round_of b + 1) × (leaders arrivals ≡ 1) }
    ensures before { (b c : Barrier W) (arrivals : List Bool) → BarrierRuns b arrivals c → b.arrivals % b.size ≡ 0 → length arrivals < b.size
        → (round_of c ≡ round_of b) × (leaders arrivals ≡ 0) }
{}
