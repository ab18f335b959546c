use crate::halls::play::{Lends, Lent, NOTHING, Row, Script, check_scripts, presence};
use mea_chan::{ChanEvent, ChanFamily, ChanHall};
use mea_family::Answer;

// A bounded channel; the tail of a broadcast channel, and how many senders it has.
impl Lends for ChanFamily {
    fn lent(&self, name: u64) -> Lent {
        let (tail, senders) = match self.broadcast(name) {
            Some(core) => (Some(core.tail()), Some(core.senders() as u64)),
            None => (None, None),
        };
        [presence(self.bounded(name).is_some()), tail, senders, None]
    }
}

// With memory at hand, a channel and a box of each kind is made, used and waited for.
const AMPLE: &[Row<'static, ChanEvent>] = &[
    (ChanEvent::MbNew(1), Ok(Answer::Made), &[]),
    (ChanEvent::MbSend(0, 7), Ok(Answer::Made), &[]),
    (ChanEvent::MbPoll(1, 20), Ok(Answer::Accepted), &[]),
    (ChanEvent::MbSend(0, 8), Ok(Answer::Made), &[]),
    (ChanEvent::MbPoll(3, 21), Ok(Answer::Pending), &[]),
    (ChanEvent::MbTryr(0), Ok(Answer::Got(7)), &[21]),
    (ChanEvent::MbPoll(3, 22), Ok(Answer::Accepted), &[]),
    (ChanEvent::MbCopy(0), Ok(Answer::Made), &[]),
    (ChanEvent::MbRecv(0, 5), Ok(Answer::Got(8)), &[]),
    (ChanEvent::MuNew, Ok(Answer::Made), &[]),
    (ChanEvent::MuSend(9, 1), Ok(Answer::Accepted), &[]),
    (ChanEvent::MuCopy(9), Ok(Answer::Made), &[]),
    (ChanEvent::MuRecv(9, 6), Ok(Answer::Got(1)), &[]),
    (ChanEvent::MuRecv(9, 6), Ok(Answer::Pending), &[]),
    (ChanEvent::OsNew, Ok(Answer::Made), &[]),
    (ChanEvent::OsInto(14), Ok(Answer::Made), &[]),
    (ChanEvent::OsPoll(15, 7), Ok(Answer::Pending), &[]),
    (ChanEvent::AbNew(3), Ok(Answer::Made), &[]),
    (ChanEvent::AbSwap(17, 4), Ok(Answer::Value(3)), &[]),
    (ChanEvent::AoNone, Ok(Answer::Made), &[]),
    (ChanEvent::AoStore(19, 5), Ok(Answer::Done), &[]),
    (ChanEvent::BcNew(3), Ok(Answer::Made), &[]),
    (ChanEvent::BcCopys(21), Ok(Answer::Made), &[]),
    (ChanEvent::BcSub(21), Ok(Answer::Made), &[]),
    (ChanEvent::BcResub(21), Ok(Answer::Made), &[]),
    (ChanEvent::BcSend(21, 9), Ok(Answer::Done), &[]),
    (ChanEvent::BcCopyr(21), Ok(Answer::Made), &[]),
    (ChanEvent::BcTry(21), Ok(Answer::Got(9)), &[]),
    (ChanEvent::BcRecv(23), Ok(Answer::Made), &[]),
    (ChanEvent::BcPoll(28, 30), Ok(Answer::Got(9)), &[]),
    (ChanEvent::BcRecv(23), Ok(Answer::Made), &[]),
    (ChanEvent::BcPoll(30, 31), Ok(Answer::Pending), &[]),
    (ChanEvent::BcEnd(30), Ok(Answer::Done), &[]),
    (ChanEvent::BcSend(22, 10), Ok(Answer::Done), &[31]),
];

// The receivers of the unbounded channel and of the oneshot wait.
const SCRIPTS: &[Script<'static, ChanEvent>] = &[Script {
    name: "ample",
    rows: AMPLE,
    registered: 2,
    lent: &[
        (0, &[Some(0), None, None, None]),
        (21, &[None, Some(2), Some(2), None]),
        (22, NOTHING),
    ],
}];

#[test]
fn scripts_of_channels(rt: HostRuntime) {
    check_scripts::<ChanHall, _>(&rt, SCRIPTS);
}
