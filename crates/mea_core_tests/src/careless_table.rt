use crate::computing::Manner::{AtOnce, Fails, Keeps};
use crate::computing::Step::{Ask, End, Kept, Poll, Wake};
use crate::computing::{Script, cell_differs, group_differs, map_differs};
use crate::play::Reply::{Count, Done, Error, Nothing, Pending, Value};

const ROWS: &[Script] = &[
    // Initialisers that answer at their first poll: nobody has to wait.
    &[
        (Ask(5, AtOnce(7)), Done),
        (Poll(0, 10), Value(7)),
        (Wake, Nothing),
    ],
    // Initialisers that always fail: each call has its own error, and the next computes.
    &[
        (Ask(5, Fails(4)), Done),
        (Ask(5, Fails(5)), Done),
        (Ask(5, AtOnce(6)), Done),
        (Poll(0, 10), Error(4)),
        (Poll(1, 11), Error(5)),
        (Wake, Nothing),
        (Poll(2, 12), Value(6)),
    ],
    // The same with all of them queued behind one that never answers.
    &[
        (Ask(5, Keeps), Done),
        (Ask(5, Fails(4)), Done),
        (Ask(5, Fails(5)), Done),
        (Ask(5, AtOnce(6)), Done),
        (Poll(0, 10), Pending),
        (Poll(1, 11), Pending),
        (Poll(2, 12), Pending),
        (Poll(3, 13), Pending),
        (End(0), Done),
        (Wake, Value(11)),
        (Poll(1, 14), Error(4)),
        (Wake, Value(12)),
        (Poll(2, 15), Error(5)),
        (Wake, Value(13)),
        (Poll(3, 16), Value(6)),
        (Wake, Nothing),
    ],
    // One that keeps every waker has all that it was polled with, and the core has none of them.
    &[
        (Ask(5, Keeps), Done),
        (Poll(0, 10), Pending),
        (Poll(0, 11), Pending),
        (Poll(0, 12), Pending),
        (Kept(0), Count(3)),
        (Wake, Nothing),
        (Ask(5, AtOnce(5)), Done),
        (Poll(1, 20), Pending),
        (Kept(0), Count(3)),
        (End(0), Done),
        (Wake, Value(20)),
        (Poll(1, 21), Value(5)),
        (Wake, Nothing),
    ],
    // One is abandoned when it is new, one while it is queued, one while it computes, and one that was woken.
    &[
        (Ask(5, Keeps), Done),
        (Ask(5, Keeps), Done),
        (Ask(5, Keeps), Done),
        (Ask(5, Keeps), Done),
        (End(0), Done),
        (Poll(1, 10), Pending),
        (Poll(2, 11), Pending),
        (Poll(3, 12), Pending),
        (End(2), Done),
        (Wake, Nothing),
        (End(1), Done),
        (Wake, Value(12)),
        (Kept(3), Count(0)),
        (End(3), Done),
        (Wake, Nothing),
        (Ask(5, AtOnce(3)), Done),
        (Poll(4, 13), Value(3)),
    ],
];

// The same comes of it at a cell, under a key of a map, and under a key of a group.
#[test]
fn careless_table(rt: HostRuntime) {
    for script in ROWS {
        assert_eq!(rt; cell_differs(rt.alloc(), script), None);
        assert_eq!(rt; map_differs(rt.alloc(), script), None);
        assert_eq!(rt; group_differs(rt.alloc(), script), None);
    }
}
