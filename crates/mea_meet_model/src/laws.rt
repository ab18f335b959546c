ghost use Rattle.mea_family.specs.Family.{RunOf, IsRun, KeepsWakers, LosesNoWake};
ghost use Rattle.mea_meet_model.specs.Meets.{meets};

/// In every hall that events reach: an event that replies `pending` to a poll places the waker given;
/// while a waker is placed for a future, a poll of it replies `pending`; an event that takes a placed waker
/// away, and neither polls nor ends its future, has that waker among its wakes; a future that an event
/// neither polls nor ends lives on, and one that it ends does not.
pub fn wakers_are_kept()
    ensures { KeepsWakers meets }
{}

/// A living future whose last poll replied `pending`, and which a poll would answer otherwise now, has had
/// the waker of that last poll woken since.
pub fn no_wake_is_lost()
    ensures { (run : RunOf meets) → IsRun meets run → LosesNoWake meets run }
{}
