ghost use Rattle.std.specs.Prelude.{◌≡◌, nat_eq};
ghost use Rattle.std.specs.Cmp.{on_equiv, on_per, partial_equiv_from_equiv};
ghost use Rattle.std.specs.Cmp.Lexicographic.{nat_list_eq_equiv, pointwise};
ghost use Rattle.mea_events.specs.LockParts.{parts};

use crate::shown::{Shown, shown};
use std::fmt;

/// A line of a script that speaks of locks. In each, `m` names a mutex, `l` a reader-writer lock, `c` a condition
/// variable, `f` a future, `g` a guard and `x` a future or a guard, by the number of the event that made it; `v` is
/// a value and `w` a waker. Names are by kind.
#[derive(Clone, Copy)]
pub enum LockEvent {
    /// `mx.new v`: makes a mutex with a value.
    MxNew(u64),
    /// `mx.lock m`: makes a plain future of its guard.
    MxLock(u64),
    /// `mx.locko m`: makes an owned future.
    MxLocko(u64),
    /// `mx.poll f w`: polls a future with a waker.
    MxPoll(u64, u64),
    /// `mx.try m`: takes the lock as a plain guard, where nobody has it.
    MxTry(u64),
    /// `mx.tryo m`: the same as an owned guard.
    MxTryo(u64),
    /// `mx.get g`: tells the value.
    MxGet(u64),
    /// `mx.set g v`: writes the value.
    MxSet(u64, u64),
    /// `mx.end x`: ends a future or a guard.
    MxEnd(u64),
    /// `mx.peek m`: tells the value of a mutex that nothing borrows.
    MxPeek(u64),
    /// `mx.put m v`: writes it.
    MxPut(u64, u64),
    /// `mx.into m`: takes the value out; the mutex is gone.
    MxInto(u64),
    /// `mx.drop m`: ends the name of a mutex.
    MxDrop(u64),
    /// `rw.new v`: makes a reader-writer lock with a value, for as many readers as there may be.
    RwNew(u64),
    /// `rw.max v n`: makes one for at most n readers.
    RwMax(u64, u64),
    /// `rw.read l`: makes a plain future of a read guard.
    RwRead(u64),
    /// `rw.reado l`: makes an owned future of a read guard.
    RwReado(u64),
    /// `rw.write l`: makes a plain future of the write guard.
    RwWrite(u64),
    /// `rw.writeo l`: makes an owned future of the write guard.
    RwWriteo(u64),
    /// `rw.poll f w`: polls a future with a waker.
    RwPoll(u64, u64),
    /// `rw.tryr l`: reads as a plain guard, where that is free.
    RwTryr(u64),
    /// `rw.tryro l`: reads as an owned guard.
    RwTryro(u64),
    /// `rw.tryw l`: writes as a plain guard, where nobody has the lock.
    RwTryw(u64),
    /// `rw.trywo l`: writes as an owned guard.
    RwTrywo(u64),
    /// `rw.get g`: tells the value.
    RwGet(u64),
    /// `rw.set g v`: writes the value, by a write guard.
    RwSet(u64, u64),
    /// `rw.down g`: makes a write guard a read guard.
    RwDown(u64),
    /// `rw.end x`: ends a future or a guard.
    RwEnd(u64),
    /// `rw.peek l`: tells the value of a lock that nothing borrows.
    RwPeek(u64),
    /// `rw.put l v`: writes it.
    RwPut(u64, u64),
    /// `rw.into l`: takes the value out; the lock is gone.
    RwInto(u64),
    /// `rw.drop l`: ends the name of a lock.
    RwDrop(u64),
    /// `cv.new`: makes a condition variable.
    CvNew,
    /// `cv.wait c g`: makes a wait, which takes the guard of a mutex over.
    CvWait(u64, u64),
    /// `cv.waitw c g v`: makes a wait that goes on while the value is below v.
    CvWaitw(u64, u64, u64),
    /// `cv.poll f w`: polls a wait with a waker.
    CvPoll(u64, u64),
    /// `cv.one c`: notifies the first that waits.
    CvOne(u64),
    /// `cv.all c`: notifies each that waits, in their order.
    CvAll(u64),
    /// `cv.end f`: ends a wait.
    CvEnd(u64),
    /// `cv.drop c`: ends a condition variable that has no wait.
    CvDrop(u64),
}

impl LockEvent {
    // Its name, how many numbers it has, and its parts: its place among the events of its family, and its numbers, 0
    // where it has fewer.
    #[tactic(auto, unfolding(crate::specs::LockParts::parts))]
    fn shown(&self) -> Shown
        ensures { result.2 ≡ parts self.now }
    {
        match *self {
            LockEvent::MxNew(a) => ("MxNew", 1, [0, a, 0, 0]),
            LockEvent::MxLock(a) => ("MxLock", 1, [1, a, 0, 0]),
            LockEvent::MxLocko(a) => ("MxLocko", 1, [2, a, 0, 0]),
            LockEvent::MxPoll(a, b) => ("MxPoll", 2, [3, a, b, 0]),
            LockEvent::MxTry(a) => ("MxTry", 1, [4, a, 0, 0]),
            LockEvent::MxTryo(a) => ("MxTryo", 1, [5, a, 0, 0]),
            LockEvent::MxGet(a) => ("MxGet", 1, [6, a, 0, 0]),
            LockEvent::MxSet(a, b) => ("MxSet", 2, [7, a, b, 0]),
            LockEvent::MxEnd(a) => ("MxEnd", 1, [8, a, 0, 0]),
            LockEvent::MxPeek(a) => ("MxPeek", 1, [9, a, 0, 0]),
            LockEvent::MxPut(a, b) => ("MxPut", 2, [10, a, b, 0]),
            LockEvent::MxInto(a) => ("MxInto", 1, [11, a, 0, 0]),
            LockEvent::MxDrop(a) => ("MxDrop", 1, [12, a, 0, 0]),
            LockEvent::RwNew(a) => ("RwNew", 1, [13, a, 0, 0]),
            LockEvent::RwMax(a, b) => ("RwMax", 2, [14, a, b, 0]),
            LockEvent::RwRead(a) => ("RwRead", 1, [15, a, 0, 0]),
            LockEvent::RwReado(a) => ("RwReado", 1, [16, a, 0, 0]),
            LockEvent::RwWrite(a) => ("RwWrite", 1, [17, a, 0, 0]),
            LockEvent::RwWriteo(a) => ("RwWriteo", 1, [18, a, 0, 0]),
            LockEvent::RwPoll(a, b) => ("RwPoll", 2, [19, a, b, 0]),
            LockEvent::RwTryr(a) => ("RwTryr", 1, [20, a, 0, 0]),
            LockEvent::RwTryro(a) => ("RwTryro", 1, [21, a, 0, 0]),
            LockEvent::RwTryw(a) => ("RwTryw", 1, [22, a, 0, 0]),
            LockEvent::RwTrywo(a) => ("RwTrywo", 1, [23, a, 0, 0]),
            LockEvent::RwGet(a) => ("RwGet", 1, [24, a, 0, 0]),
            LockEvent::RwSet(a, b) => ("RwSet", 2, [25, a, b, 0]),
            LockEvent::RwDown(a) => ("RwDown", 1, [26, a, 0, 0]),
            LockEvent::RwEnd(a) => ("RwEnd", 1, [27, a, 0, 0]),
            LockEvent::RwPeek(a) => ("RwPeek", 1, [28, a, 0, 0]),
            LockEvent::RwPut(a, b) => ("RwPut", 2, [29, a, b, 0]),
            LockEvent::RwInto(a) => ("RwInto", 1, [30, a, 0, 0]),
            LockEvent::RwDrop(a) => ("RwDrop", 1, [31, a, 0, 0]),
            LockEvent::CvNew => ("CvNew", 0, [32, 0, 0, 0]),
            LockEvent::CvWait(a, b) => ("CvWait", 2, [33, a, b, 0]),
            LockEvent::CvWaitw(a, b, c) => ("CvWaitw", 3, [34, a, b, c]),
            LockEvent::CvPoll(a, b) => ("CvPoll", 2, [35, a, b, 0]),
            LockEvent::CvOne(a) => ("CvOne", 1, [36, a, 0, 0]),
            LockEvent::CvAll(a) => ("CvAll", 1, [37, a, 0, 0]),
            LockEvent::CvEnd(a) => ("CvEnd", 1, [38, a, 0, 0]),
            LockEvent::CvDrop(a) => ("CvDrop", 1, [39, a, 0, 0]),
        }
    }
}

impl PartialEq for LockEvent {
    ghost eq = { λ a b. pointwise nat_eq (parts a) (parts b) };

    ghost laws = { on_per parts (partial_equiv_from_equiv nat_list_eq_equiv) };

    fn eq(&self, other: &LockEvent) -> bool {
        self.shown().2 == other.shown().2
    }
}

impl Eq for LockEvent {
    ghost laws = { on_equiv parts nat_list_eq_equiv };
}

impl fmt::Debug for LockEvent {
    fn fmt<O: fmt::Write>(&self, f: &mut fmt::Formatter<O>) -> fmt::Result {
        shown(f, self.shown())
    }
}
