use crate::halls::play::{
    Hall, Lends, Lent, NOTHING, Row, Script, answers, check_scripts, gone, presence, refused,
};
use mea_family::{Answer, Stop};
use mea_meet::{MeetEvent, MeetFamily, MeetHall};

// A barrier; what a latch counts; a group; a shutdown.
impl Lends for MeetFamily {
    fn lent(&self, name: u64) -> Lent {
        let count = match self.latch(name) {
            Some(core) => Some(core.count() as u64),
            None => None,
        };
        [
            presence(self.barrier(name).is_some()),
            count,
            presence(self.group(name).is_some()),
            presence(self.shutdown(name).is_some()),
        ]
    }
}

// With memory at hand, each kind of thing is made, and each kind of future waits.
const AMPLE: &[Row<'static, MeetEvent>] = &[
    (MeetEvent::BarNew(2), Ok(Answer::Made), &[]),
    (MeetEvent::BarWait(0), Ok(Answer::Made), &[]),
    (MeetEvent::BarPoll(1, 5), Ok(Answer::Pending), &[]),
    (MeetEvent::LatNew(1), Ok(Answer::Made), &[]),
    (MeetEvent::LatWait(3), Ok(Answer::Made), &[]),
    (MeetEvent::LatPoll(4, 6), Ok(Answer::Pending), &[]),
    (MeetEvent::WgNew, Ok(Answer::Made), &[]),
    (MeetEvent::WgClone(6), Ok(Answer::Made), &[]),
    (MeetEvent::WgInto(7), Ok(Answer::Made), &[]),
    (MeetEvent::WgCopy(8), Ok(Answer::Made), &[]),
    (MeetEvent::WgPoll(9, 7), Ok(Answer::Pending), &[]),
    (MeetEvent::SdNew, Ok(Answer::Made), &[]),
    (MeetEvent::SdCopys(11), Ok(Answer::Made), &[]),
    (MeetEvent::SdCopyr(11), Ok(Answer::Made), &[]),
    (MeetEvent::SdWatch(13), Ok(Answer::Made), &[]),
    (MeetEvent::SdIso(14), Ok(Answer::Made), &[]),
    (MeetEvent::SdPoll(15, 8), Ok(Answer::Pending), &[]),
    (MeetEvent::SdAwait(12), Ok(Answer::Made), &[]),
    (MeetEvent::SdPoll(17, 9), Ok(Answer::Pending), &[]),
];

// What does not live any more is gone, and its core is not lent.
const WHAT_ENDED_IS_GONE: &[Row<'static, MeetEvent>] = &[
    (MeetEvent::BarNew(2), Ok(Answer::Made), &[]),
    (MeetEvent::BarDrop(0), Ok(Answer::Done), &[]),
    (MeetEvent::LatNew(1), Ok(Answer::Made), &[]),
    (MeetEvent::LatWaito(2), Ok(Answer::Made), &[]),
    (MeetEvent::LatDrop(2), Ok(Answer::Done), &[]),
    (MeetEvent::LatPoll(3, 9), Ok(Answer::Pending), &[]),
    (MeetEvent::WgNew, Ok(Answer::Made), &[]),
    (MeetEvent::WgInto(6), Ok(Answer::Made), &[]),
    (MeetEvent::WgPoll(7, 9), Ok(Answer::Ready), &[]),
    (MeetEvent::SdNew, Ok(Answer::Made), &[]),
    (MeetEvent::SdEndr(9), Ok(Answer::Done), &[]),
    (MeetEvent::SdEnds(9), Ok(Answer::Done), &[]),
];

// The waker of an ended future stays registered, and is woken with the others.
const AN_ENDED_FUTURE_LEAVES_ITS_WAKER: &[Row<'static, MeetEvent>] = &[
    (MeetEvent::LatNew(1), Ok(Answer::Made), &[]),
    (MeetEvent::LatWait(0), Ok(Answer::Made), &[]),
    (MeetEvent::LatWait(0), Ok(Answer::Made), &[]),
    (MeetEvent::LatPoll(1, 5), Ok(Answer::Pending), &[]),
    (MeetEvent::LatPoll(2, 6), Ok(Answer::Pending), &[]),
    (MeetEvent::LatPoll(1, 7), Ok(Answer::Pending), &[]),
    (MeetEvent::LatEnd(1), Ok(Answer::Done), &[]),
    (MeetEvent::LatDown(0), Ok(Answer::Done), &[7, 6]),
    (MeetEvent::LatPoll(2, 8), Ok(Answer::Ready), &[]),
];

const SCRIPTS: &[Script<'static, MeetEvent>] = &[
    Script {
        name: "ample",
        rows: AMPLE,
        registered: 5,
        lent: &[
            (0, &[Some(0), None, None, None]),
            (3, &[None, Some(1), None, None]),
            (6, &[None, None, Some(0), None]),
            (11, &[None, None, None, Some(0)]),
        ],
    },
    Script {
        name: "what ended is gone",
        rows: WHAT_ENDED_IS_GONE,
        registered: 1,
        lent: &[(0, NOTHING), (2, NOTHING), (6, NOTHING), (9, NOTHING)],
    },
    Script {
        name: "an ended future leaves its waker",
        rows: AN_ENDED_FUTURE_LEAVES_ITS_WAKER,
        registered: 0,
        lent: &[],
    },
];

#[test]
fn scripts_of_meeting_points(rt: HostRuntime) {
    check_scripts::<MeetHall, _>(&rt, SCRIPTS);
}

// Ends take no memory, and are refused for their causes alone.
#[test]
fn no_memory_is_taken(rt: HostRuntime) {
    let mut hall = MeetHall::empty(rt.alloc());
    assert!(rt; answers(&mut hall, 0, &MeetEvent::SdNew, Answer::Made));
    assert!(rt; answers(&mut hall, 1, &MeetEvent::SdIs(0), Answer::Made));
    assert_eq!(rt;
        refused(&mut hall, 2, &MeetEvent::SdEndr(0)),
        Some(Stop::Borrowed)
    );
    assert_eq!(rt; refused(&mut hall, 3, &MeetEvent::SdEnd(1)), None);
    assert_eq!(rt; refused(&mut hall, 4, &MeetEvent::SdEndr(0)), None);
    gone(hall);
}
