use crate::halls::play::{
    Hall, Lends, Lent, NOTHING, Row, Script, answers, check_scripts, gone, presence, refused,
};
use mea_family::{Answer, Stop};
use mea_lock::{LockEvent, LockFamily, LockHall};

// A mutex; how many read a reader-writer lock, and whether one writes.
impl Lends for LockFamily {
    fn lent(&self, name: u64) -> Lent {
        let (readers, writers) = match self.rw_lock(name) {
            Some(core) => (Some(core.readers() as u64), Some(core.is_writing() as u64)),
            None => (None, None),
        };
        [presence(self.mutex(name).is_some()), readers, writers, None]
    }
}

// With memory at hand, a lock of each kind is made, used and waited for.
const AMPLE: &[Row<'static, LockEvent>] = &[
    (LockEvent::MxNew(5), Ok(Answer::Made), &[]),
    (LockEvent::MxTry(0), Ok(Answer::Held), &[]),
    (LockEvent::MxLocko(0), Ok(Answer::Made), &[]),
    (LockEvent::MxPoll(2, 7), Ok(Answer::Pending), &[]),
    (LockEvent::MxSet(1, 6), Ok(Answer::Done), &[]),
    (LockEvent::RwMax(8, 2), Ok(Answer::Made), &[]),
    (LockEvent::RwTryr(5), Ok(Answer::Held), &[]),
    (LockEvent::RwWriteo(5), Ok(Answer::Made), &[]),
    (LockEvent::RwPoll(7, 9), Ok(Answer::Pending), &[]),
    (LockEvent::RwGet(6), Ok(Answer::Value(8)), &[]),
    (LockEvent::MxEnd(1), Ok(Answer::Done), &[7]),
    (LockEvent::RwEnd(6), Ok(Answer::Done), &[9]),
    (LockEvent::RwPoll(7, 9), Ok(Answer::Ready), &[]),
    (LockEvent::RwDown(12), Ok(Answer::Done), &[]),
];

// A lock without its name is not lent, and is gone with the last of its owned things.
const WHAT_ENDED_IS_GONE: &[Row<'static, LockEvent>] = &[
    (LockEvent::MxNew(5), Ok(Answer::Made), &[]),
    (LockEvent::MxTryo(0), Ok(Answer::Held), &[]),
    (LockEvent::MxLocko(0), Ok(Answer::Made), &[]),
    (LockEvent::MxDrop(0), Ok(Answer::Done), &[]),
    (LockEvent::MxGet(1), Ok(Answer::Value(5)), &[]),
    (LockEvent::MxEnd(1), Ok(Answer::Done), &[]),
    (LockEvent::MxEnd(2), Ok(Answer::Done), &[]),
    (LockEvent::MxLock(0), Err(Stop::Unknown), &[]),
];

// A lent core tells of a write.
const A_WRITE: &[Row<'static, LockEvent>] = &[
    (LockEvent::RwNew(8), Ok(Answer::Made), &[]),
    (LockEvent::RwTryw(0), Ok(Answer::Held), &[]),
];

const SCRIPTS: &[Script<'static, LockEvent>] = &[
    Script {
        name: "ample",
        rows: AMPLE,
        registered: 0,
        lent: &[
            (0, &[Some(0), None, None, None]),
            (5, &[None, Some(1), Some(0), None]),
        ],
    },
    Script {
        name: "what ended is gone",
        rows: WHAT_ENDED_IS_GONE,
        registered: 0,
        lent: &[(0, NOTHING)],
    },
    Script {
        name: "a lent lock tells of a write",
        rows: A_WRITE,
        registered: 0,
        lent: &[(0, &[None, Some(0), Some(1), None])],
    },
];

#[test]
fn scripts_of_locks(rt: HostRuntime) {
    check_scripts::<LockHall, _>(&rt, SCRIPTS);
}

// Ends take no memory, and are refused for their causes alone.
#[test]
fn no_memory_is_taken(rt: HostRuntime) {
    let mut hall = LockHall::empty(rt.alloc());
    assert!(rt; answers(&mut hall, 0, &LockEvent::RwNew(3), Answer::Made));
    assert!(rt; answers(&mut hall, 1, &LockEvent::RwTryw(0), Answer::Held));
    assert_eq!(rt;
        refused(&mut hall, 2, &LockEvent::RwDrop(0)),
        Some(Stop::Borrowed)
    );
    assert_eq!(rt; refused(&mut hall, 3, &LockEvent::RwDown(1)), None);
    assert_eq!(rt; refused(&mut hall, 4, &LockEvent::RwEnd(1)), None);
    assert_eq!(rt; refused(&mut hall, 5, &LockEvent::RwInto(0)), None);
    gone(hall);
}
