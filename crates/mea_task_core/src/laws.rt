ghost use Rattle.std.specs.Prelude.{◌≡◌, ◌<◌, ◌≤◌, ℕ, Some, length};
ghost use Rattle.mea_family.specs.declared.stop.Stop.{Stop};
ghost use Rattle.mea_family.specs.declared.stop.Stop.TheVariants as stops;
ghost use Rattle.mea_events.specs.declared.sem_event.SemEvent.TheVariants as events;
ghost use Rattle.mea_sem_model.specs.Cause.{cause_of};
ghost use Rattle.mea_task_core.specs.Machine.{Machine, new_machine, name_of, move, moves, IsAtRest};
ghost use Rattle.mea_task_core.specs.Sound.{IsSound};
ghost use Rattle.mea_task_core.specs.Settled.{run_out, AreSettled};
ghost use Rattle.mea_task_core.specs.Turning.{turns};

/// A new machine is sound, and moves leave a sound machine sound.
pub fn moves_keep_sound()
    ensures new { IsSound new_machine }
    ensures sound { (m : Machine) (n : ℕ) → IsSound m → IsSound (moves n m) }
{}

/// A sound machine comes to rest, in whole turns, wherever it is. There each task is finished, has failed, or waits and lacks a
/// permit, and the turns are at most the tasks, takes and yields.
pub fn machines_come_to_rest()
    ensures rests { (m : Machine) → IsSound m → IsAtRest (run_out m) }
    ensures turns { (m : Machine) → IsSound m → (k : ℕ) × (turns k m ≡ run_out m) }
    ensures later { (m : Machine) (n : ℕ) → IsSound m → run_out (moves n m) ≡ run_out m }
    ensures settled { (m : Machine) → IsSound m → AreSettled (run_out m) }
    ensures few { (m : Machine) → IsSound m → m.polls ≤ m.allowance }
{}

/// A release to a semaphore that is there is refused for one cause alone.
pub fn releases_overflow_alone()
    ensures { (m : Machine) (s n : ℕ) (stop : Stop) → IsSound m → s < length m.semaphores → cause_of m.hall (events.Release (name_of m s) n) ≡ Some stop → stop ≡ stops.Overflow }
{}
