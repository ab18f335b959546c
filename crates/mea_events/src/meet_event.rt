ghost use Rattle.std.specs.Prelude.{◌≡◌, nat_eq};
ghost use Rattle.std.specs.Cmp.{on_equiv, on_per, partial_equiv_from_equiv};
ghost use Rattle.std.specs.Cmp.Lexicographic.{nat_list_eq_equiv, pointwise};
ghost use Rattle.mea_events.specs.MeetParts.{parts};

use crate::shown::{Shown, shown};
use std::fmt;

/// A line of a script that speaks of meeting points. In each, `b` names a barrier, `l` a latch, `h` a
/// handle of a wait group, `s` a sender and `r` a receiver of a shutdown, `f` a future and `x` one of two
/// kinds, by the number of the event that made it; `w` is a waker.
#[derive(Clone, Copy)]
pub enum MeetEvent {
    /// `bar.new n`: makes a barrier of n, where 0 counts as 1.
    BarNew(u32),
    /// `bar.wait b`: makes a plain future.
    BarWait(u64),
    /// `bar.poll f w`: arrives by the first poll; a later one tells whether the round is over.
    BarPoll(u64, u64),
    /// `bar.end f`: ends a future; its arrival and its waker stay.
    BarEnd(u64),
    /// `bar.drop b`: ends a barrier.
    BarDrop(u64),
    /// `lat.new n`: makes a latch with the count n.
    LatNew(u32),
    /// `lat.count l`: tells the count.
    LatCount(u64),
    /// `lat.down l`: takes 1 from the count.
    LatDown(u64),
    /// `lat.arrive l n`: takes n from the count.
    LatArrive(u64, u32),
    /// `lat.try l`: tells whether the count is 0.
    LatTry(u64),
    /// `lat.wait l`: makes a plain future.
    LatWait(u64),
    /// `lat.waito l`: makes an owned future.
    LatWaito(u64),
    /// `lat.poll f w`: polls a future with a waker.
    LatPoll(u64, u64),
    /// `lat.end f`: ends a future; its waker stays.
    LatEnd(u64),
    /// `lat.drop l`: ends the name of a latch.
    LatDrop(u64),
    /// `wg.new`: makes a group with one handle.
    WgNew,
    /// `wg.clone h`: makes a further handle.
    WgClone(u64),
    /// `wg.into h`: ends a handle and makes a future.
    WgInto(u64),
    /// `wg.copy f`: makes a further future.
    WgCopy(u64),
    /// `wg.poll f w`: polls a future with a waker.
    WgPoll(u64, u64),
    /// `wg.end x`: ends a handle or a future.
    WgEnd(u64),
    /// `sd.new`: makes a sender and a receiver.
    SdNew,
    /// `sd.copys s`: makes a further sender.
    SdCopys(u64),
    /// `sd.copyr x`: makes a further receiver, or watch.
    SdCopyr(u64),
    /// `sd.signal s`: sets the signal.
    SdSignal(u64),
    /// `sd.now x`: tells whether the signal is set.
    SdNow(u64),
    /// `sd.watch r`: makes a watch, which does not count as a receiver.
    SdWatch(u64),
    /// `sd.is x`: makes a plain future on the signal.
    SdIs(u64),
    /// `sd.iso x`: makes an owned future on the signal.
    SdIso(u64),
    /// `sd.await s`: ends a sender and makes an owned future on the end of all receivers.
    SdAwait(u64),
    /// `sd.poll f w`: polls a future with a waker.
    SdPoll(u64, u64),
    /// `sd.end f`: ends a future; its waker stays.
    SdEnd(u64),
    /// `sd.ends s`: ends a sender.
    SdEnds(u64),
    /// `sd.endr x`: ends a receiver or a watch.
    SdEndr(u64),
}

impl MeetEvent {
    // Its name, how many numbers it has, and its parts: its place among the events of its family, and its numbers, 0
    // where it has fewer.
    #[tactic(auto, unfolding(crate::specs::MeetParts::parts))]
    fn shown(&self) -> Shown
        ensures { result.2 ≡ parts self.now }
    {
        match *self {
            MeetEvent::BarNew(a) => ("BarNew", 1, [0, u64::from(a), 0, 0]),
            MeetEvent::BarWait(a) => ("BarWait", 1, [1, a, 0, 0]),
            MeetEvent::BarPoll(a, b) => ("BarPoll", 2, [2, a, b, 0]),
            MeetEvent::BarEnd(a) => ("BarEnd", 1, [3, a, 0, 0]),
            MeetEvent::BarDrop(a) => ("BarDrop", 1, [4, a, 0, 0]),
            MeetEvent::LatNew(a) => ("LatNew", 1, [5, u64::from(a), 0, 0]),
            MeetEvent::LatCount(a) => ("LatCount", 1, [6, a, 0, 0]),
            MeetEvent::LatDown(a) => ("LatDown", 1, [7, a, 0, 0]),
            MeetEvent::LatArrive(a, b) => ("LatArrive", 2, [8, a, u64::from(b), 0]),
            MeetEvent::LatTry(a) => ("LatTry", 1, [9, a, 0, 0]),
            MeetEvent::LatWait(a) => ("LatWait", 1, [10, a, 0, 0]),
            MeetEvent::LatWaito(a) => ("LatWaito", 1, [11, a, 0, 0]),
            MeetEvent::LatPoll(a, b) => ("LatPoll", 2, [12, a, b, 0]),
            MeetEvent::LatEnd(a) => ("LatEnd", 1, [13, a, 0, 0]),
            MeetEvent::LatDrop(a) => ("LatDrop", 1, [14, a, 0, 0]),
            MeetEvent::WgNew => ("WgNew", 0, [15, 0, 0, 0]),
            MeetEvent::WgClone(a) => ("WgClone", 1, [16, a, 0, 0]),
            MeetEvent::WgInto(a) => ("WgInto", 1, [17, a, 0, 0]),
            MeetEvent::WgCopy(a) => ("WgCopy", 1, [18, a, 0, 0]),
            MeetEvent::WgPoll(a, b) => ("WgPoll", 2, [19, a, b, 0]),
            MeetEvent::WgEnd(a) => ("WgEnd", 1, [20, a, 0, 0]),
            MeetEvent::SdNew => ("SdNew", 0, [21, 0, 0, 0]),
            MeetEvent::SdCopys(a) => ("SdCopys", 1, [22, a, 0, 0]),
            MeetEvent::SdCopyr(a) => ("SdCopyr", 1, [23, a, 0, 0]),
            MeetEvent::SdSignal(a) => ("SdSignal", 1, [24, a, 0, 0]),
            MeetEvent::SdNow(a) => ("SdNow", 1, [25, a, 0, 0]),
            MeetEvent::SdWatch(a) => ("SdWatch", 1, [26, a, 0, 0]),
            MeetEvent::SdIs(a) => ("SdIs", 1, [27, a, 0, 0]),
            MeetEvent::SdIso(a) => ("SdIso", 1, [28, a, 0, 0]),
            MeetEvent::SdAwait(a) => ("SdAwait", 1, [29, a, 0, 0]),
            MeetEvent::SdPoll(a, b) => ("SdPoll", 2, [30, a, b, 0]),
            MeetEvent::SdEnd(a) => ("SdEnd", 1, [31, a, 0, 0]),
            MeetEvent::SdEnds(a) => ("SdEnds", 1, [32, a, 0, 0]),
            MeetEvent::SdEndr(a) => ("SdEndr", 1, [33, a, 0, 0]),
        }
    }
}

impl PartialEq for MeetEvent {
    ghost eq = { λ a b. pointwise nat_eq (parts a) (parts b) };

    ghost laws = { on_per parts (partial_equiv_from_equiv nat_list_eq_equiv) };

    fn eq(&self, other: &MeetEvent) -> bool {
        self.shown().2 == other.shown().2
    }
}

impl Eq for MeetEvent {
    ghost laws = { on_equiv parts nat_list_eq_equiv };
}

impl fmt::Debug for MeetEvent {
    fn fmt<O: fmt::Write>(&self, f: &mut fmt::Formatter<O>) -> fmt::Result {
        shown(f, self.shown())
    }
}
