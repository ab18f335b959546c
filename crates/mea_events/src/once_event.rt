ghost use Rattle.std.specs.Prelude.{◌≡◌, nat_eq};
ghost use Rattle.std.specs.Cmp.{on_equiv, on_per, partial_equiv_from_equiv};
ghost use Rattle.std.specs.Cmp.Lexicographic.{nat_list_eq_equiv, pointwise};
ghost use Rattle.mea_events.specs.OnceParts.{parts};

use crate::shown::{Shown, shown};
use std::fmt;

/// A line of a script that speaks of once types. In each, `o` names a call that runs once, `c` a cell, `m` a map, `g` a
/// group and `f` a future, by the number of the event that made it; `k` is a key, `v` a value, `e` an error and `w` a
/// waker. Names are by kind.
#[derive(Clone, Copy)]
pub enum OnceEvent {
    /// `on.new`: makes a call that runs once.
    OnNew,
    /// `on.done o`: tells whether it has completed.
    OnDone(u64),
    /// `on.call o`: makes a future that calls it, with an initialiser of its own.
    OnCall(u64),
    /// `on.wait o`: makes a future that waits until it has completed.
    OnWait(u64),
    /// `on.poll f w`: polls a future with a waker.
    OnPoll(u64, u64),
    /// `on.settle f`: the initialiser of a future is done.
    OnSettle(u64),
    /// `on.end f`: ends a future.
    OnEnd(u64),
    /// `on.drop o`: it is gone.
    OnDrop(u64),
    /// `oc.new`: makes an empty cell.
    OcNew,
    /// `oc.from v`: makes a cell with a value.
    OcFrom(u64),
    /// `oc.get c`: tells the value.
    OcGet(u64),
    /// `oc.init c`: makes a future that computes a value, with an initialiser of its own.
    OcInit(u64),
    /// `oc.set c v`: makes a future that puts a value in.
    OcSet(u64, u64),
    /// `oc.ins c v`: makes a future that puts a value in and tells what is there.
    OcIns(u64, u64),
    /// `oc.minit c`: makes a future that computes a value and uses the cell alone.
    OcMinit(u64),
    /// `oc.poll f w`: polls a future with a waker.
    OcPoll(u64, u64),
    /// `oc.settle f v`: the initialiser of a future gives a value.
    OcSettle(u64, u64),
    /// `oc.fail f e`: the initialiser of a future fails.
    OcFail(u64, u64),
    /// `oc.end f`: ends a future.
    OcEnd(u64),
    /// `oc.peek c`: tells the value of a cell that nothing borrows.
    OcPeek(u64),
    /// `oc.put c v`: writes it, where there is one.
    OcPut(u64, u64),
    /// `oc.take c`: empties the cell, and tells what was there.
    OcTake(u64),
    /// `oc.into c`: tells what is there; the cell is gone.
    OcInto(u64),
    /// `oc.drop c`: the cell is gone.
    OcDrop(u64),
    /// `om.new`: makes a map that computes a value once for each key.
    OmNew,
    /// `om.get m k`: tells the value of a key.
    OmGet(u64, u64),
    /// `om.compute m k`: makes a future that computes the value of a key, with an initialiser of its own.
    OmCompute(u64, u64),
    /// `om.poll f w`: polls a future with a waker.
    OmPoll(u64, u64),
    /// `om.settle f v`: the initialiser of a future gives a value.
    OmSettle(u64, u64),
    /// `om.fail f e`: the initialiser of a future fails.
    OmFail(u64, u64),
    /// `om.discard m k`: takes a key out.
    OmDiscard(u64, u64),
    /// `om.remove m k`: takes a key out, and tells its value.
    OmRemove(u64, u64),
    /// `om.end f`: ends a future.
    OmEnd(u64),
    /// `om.drop m`: the map is gone.
    OmDrop(u64),
    /// `sf.new`: makes a group whose calls of one key share what the first of them computes.
    SfNew,
    /// `sf.work g k`: makes a future that computes the value of a key, with an initialiser of its own.
    SfWork(u64, u64),
    /// `sf.poll f w`: polls a future with a waker.
    SfPoll(u64, u64),
    /// `sf.settle f v`: the initialiser of a future gives a value.
    SfSettle(u64, u64),
    /// `sf.fail f e`: the initialiser of a future fails.
    SfFail(u64, u64),
    /// `sf.forget g k`: the next future of a key computes anew.
    SfForget(u64, u64),
    /// `sf.end f`: ends a future.
    SfEnd(u64),
    /// `sf.drop g`: the group is gone.
    SfDrop(u64),
}

impl OnceEvent {
    // Its name, how many numbers it has, and its parts: its place among the events of its family, and its numbers, 0
    // where it has fewer.
    #[tactic(auto, unfolding(crate::specs::OnceParts::parts))]
    fn shown(&self) -> Shown
        ensures { result.2 ≡ parts self.now }
    {
        match *self {
            OnceEvent::OnNew => ("OnNew", 0, [0, 0, 0, 0]),
            OnceEvent::OnDone(a) => ("OnDone", 1, [1, a, 0, 0]),
            OnceEvent::OnCall(a) => ("OnCall", 1, [2, a, 0, 0]),
            OnceEvent::OnWait(a) => ("OnWait", 1, [3, a, 0, 0]),
            OnceEvent::OnPoll(a, b) => ("OnPoll", 2, [4, a, b, 0]),
            OnceEvent::OnSettle(a) => ("OnSettle", 1, [5, a, 0, 0]),
            OnceEvent::OnEnd(a) => ("OnEnd", 1, [6, a, 0, 0]),
            OnceEvent::OnDrop(a) => ("OnDrop", 1, [7, a, 0, 0]),
            OnceEvent::OcNew => ("OcNew", 0, [8, 0, 0, 0]),
            OnceEvent::OcFrom(a) => ("OcFrom", 1, [9, a, 0, 0]),
            OnceEvent::OcGet(a) => ("OcGet", 1, [10, a, 0, 0]),
            OnceEvent::OcInit(a) => ("OcInit", 1, [11, a, 0, 0]),
            OnceEvent::OcSet(a, b) => ("OcSet", 2, [12, a, b, 0]),
            OnceEvent::OcIns(a, b) => ("OcIns", 2, [13, a, b, 0]),
            OnceEvent::OcMinit(a) => ("OcMinit", 1, [14, a, 0, 0]),
            OnceEvent::OcPoll(a, b) => ("OcPoll", 2, [15, a, b, 0]),
            OnceEvent::OcSettle(a, b) => ("OcSettle", 2, [16, a, b, 0]),
            OnceEvent::OcFail(a, b) => ("OcFail", 2, [17, a, b, 0]),
            OnceEvent::OcEnd(a) => ("OcEnd", 1, [18, a, 0, 0]),
            OnceEvent::OcPeek(a) => ("OcPeek", 1, [19, a, 0, 0]),
            OnceEvent::OcPut(a, b) => ("OcPut", 2, [20, a, b, 0]),
            OnceEvent::OcTake(a) => ("OcTake", 1, [21, a, 0, 0]),
            OnceEvent::OcInto(a) => ("OcInto", 1, [22, a, 0, 0]),
            OnceEvent::OcDrop(a) => ("OcDrop", 1, [23, a, 0, 0]),
            OnceEvent::OmNew => ("OmNew", 0, [24, 0, 0, 0]),
            OnceEvent::OmGet(a, b) => ("OmGet", 2, [25, a, b, 0]),
            OnceEvent::OmCompute(a, b) => ("OmCompute", 2, [26, a, b, 0]),
            OnceEvent::OmPoll(a, b) => ("OmPoll", 2, [27, a, b, 0]),
            OnceEvent::OmSettle(a, b) => ("OmSettle", 2, [28, a, b, 0]),
            OnceEvent::OmFail(a, b) => ("OmFail", 2, [29, a, b, 0]),
            OnceEvent::OmDiscard(a, b) => ("OmDiscard", 2, [30, a, b, 0]),
            OnceEvent::OmRemove(a, b) => ("OmRemove", 2, [31, a, b, 0]),
            OnceEvent::OmEnd(a) => ("OmEnd", 1, [32, a, 0, 0]),
            OnceEvent::OmDrop(a) => ("OmDrop", 1, [33, a, 0, 0]),
            OnceEvent::SfNew => ("SfNew", 0, [34, 0, 0, 0]),
            OnceEvent::SfWork(a, b) => ("SfWork", 2, [35, a, b, 0]),
            OnceEvent::SfPoll(a, b) => ("SfPoll", 2, [36, a, b, 0]),
            OnceEvent::SfSettle(a, b) => ("SfSettle", 2, [37, a, b, 0]),
            OnceEvent::SfFail(a, b) => ("SfFail", 2, [38, a, b, 0]),
            OnceEvent::SfForget(a, b) => ("SfForget", 2, [39, a, b, 0]),
            OnceEvent::SfEnd(a) => ("SfEnd", 1, [40, a, 0, 0]),
            OnceEvent::SfDrop(a) => ("SfDrop", 1, [41, a, 0, 0]),
        }
    }
}

impl PartialEq for OnceEvent {
    ghost eq = { λ a b. pointwise nat_eq (parts a) (parts b) };

    ghost laws = { on_per parts (partial_equiv_from_equiv nat_list_eq_equiv) };

    fn eq(&self, other: &OnceEvent) -> bool {
        self.shown().2 == other.shown().2
    }
}

impl Eq for OnceEvent {
    ghost laws = { on_equiv parts nat_list_eq_equiv };
}

impl fmt::Debug for OnceEvent {
    fn fmt<O: fmt::Write>(&self, f: &mut fmt::Formatter<O>) -> fmt::Result {
        shown(f, self.shown())
    }
}
