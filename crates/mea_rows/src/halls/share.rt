use crate::halls::play::{Lends, Lent, NOTHING, Row, Script, check_scripts};
use mea_events::ShareEvent;
use mea_family::{Answer, Stop};
use mea_share::{ShareFamily, ShareHall};

// How many permits of an admission are free.
impl Lends for ShareFamily {
    fn lent(&self, name: u64) -> Lent {
        let free = match self.fair(name) {
            Some(core) => Some(core.available_permits() as u64),
            None => None,
        };
        [free, None, None, None]
    }
}

// A permit that comes back goes to the key that holds least, though it has waited shorter.
const THE_KEY_THAT_HOLDS_LEAST_IS_NEXT: &[Row<'static, ShareEvent>] = &[
    (ShareEvent::FsNew(2), Ok(Answer::Made), &[]),
    (ShareEvent::FsTry(0, 1), Ok(Answer::Held), &[]),
    (ShareEvent::FsTry(0, 1), Ok(Answer::Held), &[]),
    (ShareEvent::FsAcq(0, 1), Ok(Answer::Made), &[]),
    (ShareEvent::FsPoll(3, 10), Ok(Answer::Pending), &[]),
    (ShareEvent::FsAcq(0, 2), Ok(Answer::Made), &[]),
    (ShareEvent::FsPoll(5, 11), Ok(Answer::Pending), &[]),
    (ShareEvent::FsEnd(1), Ok(Answer::Done), &[11]),
    (ShareEvent::FsPoll(5, 12), Ok(Answer::Ready), &[]),
    (ShareEvent::FsPoll(3, 13), Ok(Answer::Pending), &[]),
    (ShareEvent::FsKey(8), Ok(Answer::Key(2)), &[]),
    (ShareEvent::FsWaiters(0), Ok(Answer::Count(1)), &[]),
    (ShareEvent::FsTry(0, 3), Ok(Answer::Lacking), &[]),
    (ShareEvent::FsFree(0), Ok(Answer::Free(0)), &[]),
];

// A key of weight 2 that holds one goes before one of weight 1 that holds one.
const A_KEY_HAS_A_WEIGHT: &[Row<'static, ShareEvent>] = &[
    (ShareEvent::FsNew(3), Ok(Answer::Made), &[]),
    (ShareEvent::FsWeight(0, 1, 2), Ok(Answer::Done), &[]),
    (ShareEvent::FsTry(0, 1), Ok(Answer::Held), &[]),
    (ShareEvent::FsTry(0, 1), Ok(Answer::Held), &[]),
    (ShareEvent::FsTry(0, 2), Ok(Answer::Held), &[]),
    (ShareEvent::FsAcq(0, 2), Ok(Answer::Made), &[]),
    (ShareEvent::FsPoll(5, 11), Ok(Answer::Pending), &[]),
    (ShareEvent::FsAcq(0, 1), Ok(Answer::Made), &[]),
    (ShareEvent::FsPoll(7, 10), Ok(Answer::Pending), &[]),
    (ShareEvent::FsEnd(2), Ok(Answer::Done), &[10]),
    (ShareEvent::FsPoll(7, 12), Ok(Answer::Ready), &[]),
    (ShareEvent::FsEnd(3), Ok(Answer::Done), &[11]),
    (ShareEvent::FsPoll(5, 13), Ok(Answer::Ready), &[]),
    (ShareEvent::FsWeightof(0, 1), Ok(Answer::Count(2)), &[]),
    (ShareEvent::FsWeightof(0, 9), Ok(Answer::Count(1)), &[]),
    (ShareEvent::FsWeight(0, 3, 0), Err(Stop::Zero), &[]),
    (ShareEvent::FsFree(0), Ok(Answer::Free(0)), &[]),
    (ShareEvent::FsDrop(0), Err(Stop::Borrowed), &[]),
];

// An owned permit and an owned future go on once the admission has no name; the last waker of the future counts.
const OWNED_THINGS_OUTLIVE_THE_NAME: &[Row<'static, ShareEvent>] = &[
    (ShareEvent::FsNew(0), Err(Stop::Zero), &[]),
    (ShareEvent::FsNew(1), Ok(Answer::Made), &[]),
    (ShareEvent::FsTryo(1, 1), Ok(Answer::Held), &[]),
    (ShareEvent::FsAcqo(1, 2), Ok(Answer::Made), &[]),
    (ShareEvent::FsPoll(3, 7), Ok(Answer::Pending), &[]),
    (ShareEvent::FsPoll(3, 8), Ok(Answer::Pending), &[]),
    (ShareEvent::FsDrop(1), Ok(Answer::Done), &[]),
    (ShareEvent::FsFree(1), Err(Stop::Unknown), &[]),
    (ShareEvent::FsEnd(2), Ok(Answer::Done), &[8]),
    (ShareEvent::FsPoll(3, 9), Ok(Answer::Ready), &[]),
    (ShareEvent::FsKey(9), Ok(Answer::Key(2)), &[]),
    (ShareEvent::FsEnd(9), Ok(Answer::Done), &[]),
    (ShareEvent::FsEnd(9), Err(Stop::Unknown), &[]),
];

// An admission that is named is lent.
const WHAT_IS_NAMED_IS_LENT: &[Row<'static, ShareEvent>] = &[
    (ShareEvent::FsNew(2), Ok(Answer::Made), &[]),
    (ShareEvent::FsTryo(0, 1), Ok(Answer::Held), &[]),
    (ShareEvent::FsNew(1), Ok(Answer::Made), &[]),
    (ShareEvent::FsDrop(2), Ok(Answer::Done), &[]),
];

const SCRIPTS: &[Script<'static, ShareEvent>] = &[
    Script {
        name: "the key that holds least is next",
        rows: THE_KEY_THAT_HOLDS_LEAST_IS_NEXT,
        registered: 1,
        lent: &[],
    },
    Script {
        name: "a key has a weight",
        rows: A_KEY_HAS_A_WEIGHT,
        registered: 0,
        lent: &[],
    },
    Script {
        name: "owned things outlive the name",
        rows: OWNED_THINGS_OUTLIVE_THE_NAME,
        registered: 0,
        lent: &[],
    },
    Script {
        name: "what is named is lent",
        rows: WHAT_IS_NAMED_IS_LENT,
        registered: 0,
        lent: &[(0, &[Some(1), None, None, None]), (2, NOTHING)],
    },
];

#[test]
fn scripts_of_admission(rt: HostRuntime) {
    check_scripts::<ShareHall, _>(&rt, SCRIPTS);
}
