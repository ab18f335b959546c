use crate::halls::play::gone;
use mea_events::{Event, Replies, SemEvent};
use mea_family::{Answer, Stop};
use mea_hall::{Hall, Played, replay};
use mea_lines::lines_have_one_spelling;
use mea_meet::MeetEvent;
use mea_text::{put_number, put_reply, put_text};
use std::alloc::Global;
use std::process::Abort;

// An expected reply: its number, its answer, and the waker that its event made ready.
type Reply = (usize, Answer, Option<u64>);

// The names that the script of two families gives its latch and its shutdown.
const LATCH: u64 = 1;

const SHUTDOWN: u64 = 7;

// A list of events, some of the replies to it, and what it leaves.
struct Replay {
    name: &'static str,
    events: &'static [Event],
    replies: &'static [Reply],
    left: Left,
}

// What a replay leaves, in values: no test holds a hall, since a proof about it would carry the laws of all families.
#[derive(Drop)]
struct Left {
    ended: Result<(), Stop>,
    // How many events were played, and how many replies there are.
    events: u64,
    replies: usize,
    // How many wakers are ready, and how many are registered.
    ready: usize,
    registered: usize,
    // What the latch counts, if there is one, and whether there is a shutdown.
    lent: (Option<u32>, bool),
}

// What these events leave, and the number of the first of these replies that is another. What `replay` promises stays here.
fn replayed(alloc: Global, events: &[Event], expected: &[Reply]) -> (Left, Option<usize>) {
    let played = replay(alloc, events);
    let told = (left_of(&played), differs(&played.replies, expected));
    gone(played);
    told
}

fn left_of(played: &Played) -> Left {
    let hall = &played.hall;
    Left {
        ended: played.ended,
        events: hall.events(),
        replies: played.replies.len(),
        ready: hall.wakes_ready(),
        registered: hall.registered(),
        lent: (count(hall), hall.meets().shutdown(SHUTDOWN).is_some()),
    }
}

// The number of the first of these replies that is another.
fn differs(replies: &Replies, expected: &[Reply]) -> Option<usize> {
    for (number, answer, waker) in expected {
        if !is_reply(replies, *number, answer, *waker) {
            return Some(*number);
        }
    }
    None
}

fn is_reply(replies: &Replies, number: usize, answer: &Answer, waker: Option<u64>) -> bool {
    if number >= replies.len() || replies.answer(number) != answer {
        return false;
    }
    let wakes = replies.wakes(number);
    wakes.first().copied() == waker && wakes.len() <= 1
}

// What the latch counts, if there is one.
fn count(hall: &Hall) -> Option<u32> {
    match hall.meets().latch(LATCH) {
        Some(core) => Some(core.count()),
        None => None,
    }
}

// Each call that may find no memory finds some: events that are played, with a waker that is registered.
const AMPLE: &[Event] = &[
    Event::Meet(MeetEvent::LatNew(1)),
    Event::Meet(MeetEvent::LatWait(0)),
    Event::Meet(MeetEvent::LatPoll(1, 5)),
];

// A waker that an event makes ready stands beside the reply to that event.
const WAKES_STAND_BESIDE_THEIR_REPLY: &[Event] = &[
    Event::Sem(SemEvent::New(0)),
    Event::Sem(SemEvent::Acq(0, 1)),
    Event::Sem(SemEvent::Poll(1, 5)),
    Event::Sem(SemEvent::Release(0, 1)),
];

// The families have their numbers in common, and each its own wakers.
const TWO_FAMILIES: &[Event] = &[
    Event::Sem(SemEvent::New(0)),
    Event::Meet(MeetEvent::LatNew(2)),
    Event::Sem(SemEvent::Acq(0, 1)),
    Event::Meet(MeetEvent::LatWait(LATCH)),
    Event::Sem(SemEvent::Poll(2, 5)),
    Event::Meet(MeetEvent::LatPoll(3, 6)),
    Event::Meet(MeetEvent::LatArrive(LATCH, 2)),
    Event::Meet(MeetEvent::SdNew),
    Event::Meet(MeetEvent::SdIso(SHUTDOWN)),
    Event::Meet(MeetEvent::SdPoll(8, 7)),
    Event::Sem(SemEvent::Release(0, 1)),
];

// A line of one family finds nothing of another under its number.
const FAMILIES_SHARE_NO_THINGS: &[Event] = &[
    Event::Sem(SemEvent::New(1)),
    Event::Meet(MeetEvent::LatDown(0)),
];

const REPLAYS: &[Replay] = &[
    Replay {
        name: "ample",
        events: AMPLE,
        replies: &[(2, Answer::Pending, None)],
        left: Left {
            ended: Ok(()),
            events: 3,
            replies: 3,
            ready: 0,
            registered: 1,
            lent: (None, false),
        },
    },
    Replay {
        name: "wakes stand beside their reply",
        events: WAKES_STAND_BESIDE_THEIR_REPLY,
        replies: &[(2, Answer::Pending, None), (3, Answer::Done, Some(5))],
        left: Left {
            ended: Ok(()),
            events: 4,
            replies: 4,
            ready: 0,
            registered: 0,
            lent: (None, false),
        },
    },
    Replay {
        name: "two families in one script",
        events: TWO_FAMILIES,
        replies: &[
            (6, Answer::Done, Some(6)),
            (9, Answer::Pending, None),
            (10, Answer::Done, Some(5)),
        ],
        left: Left {
            ended: Ok(()),
            events: 11,
            replies: 11,
            ready: 0,
            registered: 1,
            lent: (Some(0), true),
        },
    },
    Replay {
        name: "families share no things",
        events: FAMILIES_SHARE_NO_THINGS,
        replies: &[],
        left: Left {
            ended: Err(Stop::Unknown),
            events: 1,
            replies: 1,
            ready: 0,
            registered: 0,
            lent: (None, false),
        },
    },
];

// Plays a list of events, and compares what it leaves.
fn check(rt: &(impl Abort + AllocGlobal), script: &Replay) {
    let name = script.name;
    let (left, differs) = replayed(rt.alloc(), script.events, script.replies);
    assert_eq!(rt; differs, None, "{name}");
    assert!(rt; left.ended == script.left.ended, "{name}");
    assert_eq!(rt; left.events, script.left.events, "{name}");
    assert_eq!(rt; left.replies, script.left.replies, "{name}");
    assert_eq!(rt; left.ready, script.left.ready, "{name}");
    assert_eq!(rt; left.registered, script.left.registered, "{name}");
    assert_eq!(rt; left.lent, script.left.lent, "{name}");
}

fn check_all(rt: &(impl Abort + AllocGlobal), scripts: &[Replay]) {
    for script in scripts {
        check(rt, script);
    }
}

#[test]
fn replays(rt: HostRuntime) {
    check_all(&rt, REPLAYS);
}

// The same: replies and texts.
#[test]
fn ample_text(rt: HostRuntime) {
    let mut replies = Replies::new(rt.alloc());
    assert!(rt; replies.reserve(1, 3) == Ok(()));
    let mut text = Vec::new(rt.alloc());
    assert!(rt; put_text(&mut text, b"text") == Ok(()));
    assert!(rt; put_number(&mut text, 7) == Ok(()));
    assert!(rt; put_reply(&mut text, &Answer::Free(1), &[5, 6]) == Ok(()));
    assert!(rt; text.as_slice() == b"text 7free 1 wake 5 6\n".as_slice());
    lines_have_one_spelling();
}
