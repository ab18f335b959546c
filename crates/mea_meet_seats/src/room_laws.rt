ghost use Rattle.std.specs.Prelude.{ℕ, ◌≤◌, length};
ghost use Rattle.mea_meet_seats.specs.Seats.{Seats};
ghost use Rattle.mea_meet_seats.specs.SeatsRuns.{SeatsRuns, places};

/// In every run of polls and ends, a set has no more places than waited at one time, however many came and went; and
/// there are no more places to be given back than the set has.
pub fn a_set_has_room_for_those_who_wait_at_one_time<W>()
    ensures room { (s : Seats W) (most : ℕ) → SeatsRuns s most → places s ≤ most }
    ensures vacant { (s : Seats W) (most : ℕ) → SeatsRuns s most → length s.free ≤ places s }
{}
