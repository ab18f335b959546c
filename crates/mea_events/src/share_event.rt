ghost use Rattle.std.specs.Prelude.{◌≡◌, nat_eq};
ghost use Rattle.std.specs.Cmp.{on_equiv, on_per, partial_equiv_from_equiv};
ghost use Rattle.std.specs.Cmp.Lexicographic.{nat_list_eq_equiv, pointwise};
ghost use Rattle.mea_events.specs.ShareParts.{parts};

use crate::shown::{Shown, shown};
use std::fmt;

/// A line of a script that speaks of fair admission. In each, `s` names an admission, `f` a future, `p` a permit and `x` a
/// future or a permit, by the number of the event that made it; `k` is a key and `w` a waker.
#[derive(Clone, Copy)]
pub enum ShareEvent {
    /// `fs.new n`: makes an admission with n permits.
    FsNew(u64),
    /// `fs.free s`: tells the free permits.
    FsFree(u64),
    /// `fs.waiters s`: tells how many futures wait.
    FsWaiters(u64),
    /// `fs.try s k`: takes a permit for a key as a plain one, where one is free and nobody waits.
    FsTry(u64, u64),
    /// `fs.tryo s k`: the same as an owned permit.
    FsTryo(u64, u64),
    /// `fs.acq s k`: makes a plain future of a permit for a key.
    FsAcq(u64, u64),
    /// `fs.acqo s k`: makes an owned future.
    FsAcqo(u64, u64),
    /// `fs.poll f w`: polls a future with a waker.
    FsPoll(u64, u64),
    /// `fs.key p`: tells the key of a permit.
    FsKey(u64),
    /// `fs.end x`: ends a future or a permit.
    FsEnd(u64),
    /// `fs.drop s`: ends the name of an admission.
    FsDrop(u64),
    /// `fs.weight s k n`: sets the weight of a key.
    FsWeight(u64, u64, u64),
    /// `fs.weightof s k`: tells the weight of a key.
    FsWeightof(u64, u64),
}

impl ShareEvent {
    // Its name, how many numbers it has, and its parts: its place among the events of its family, and its numbers, 0
    // where it has fewer.
    #[tactic(auto, unfolding(crate::specs::ShareParts::parts))]
    fn shown(&self) -> Shown
        ensures { result.2 ≡ parts self.now }
    {
        match *self {
            ShareEvent::FsNew(a) => ("FsNew", 1, [0, a, 0, 0]),
            ShareEvent::FsFree(a) => ("FsFree", 1, [1, a, 0, 0]),
            ShareEvent::FsWaiters(a) => ("FsWaiters", 1, [2, a, 0, 0]),
            ShareEvent::FsTry(a, b) => ("FsTry", 2, [3, a, b, 0]),
            ShareEvent::FsTryo(a, b) => ("FsTryo", 2, [4, a, b, 0]),
            ShareEvent::FsAcq(a, b) => ("FsAcq", 2, [5, a, b, 0]),
            ShareEvent::FsAcqo(a, b) => ("FsAcqo", 2, [6, a, b, 0]),
            ShareEvent::FsPoll(a, b) => ("FsPoll", 2, [7, a, b, 0]),
            ShareEvent::FsKey(a) => ("FsKey", 1, [8, a, 0, 0]),
            ShareEvent::FsEnd(a) => ("FsEnd", 1, [9, a, 0, 0]),
            ShareEvent::FsDrop(a) => ("FsDrop", 1, [10, a, 0, 0]),
            ShareEvent::FsWeight(a, b, c) => ("FsWeight", 3, [11, a, b, c]),
            ShareEvent::FsWeightof(a, b) => ("FsWeightof", 2, [12, a, b, 0]),
        }
    }
}

impl PartialEq for ShareEvent {
    ghost eq = { λ a b. pointwise nat_eq (parts a) (parts b) };

    ghost laws = { on_per parts (partial_equiv_from_equiv nat_list_eq_equiv) };

    fn eq(&self, other: &ShareEvent) -> bool {
        self.shown().2 == other.shown().2
    }
}

impl Eq for ShareEvent {
    ghost laws = { on_equiv parts nat_list_eq_equiv };
}

impl fmt::Debug for ShareEvent {
    fn fmt<O: fmt::Write>(&self, f: &mut fmt::Formatter<O>) -> fmt::Result {
        shown(f, self.shown())
    }
}
