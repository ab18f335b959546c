use crate::jobs::play::Reply::{
    Counted, Done, Full, Nothing, Pair, Pending, Queued, Ready, Running, Starts, Stopped, Unknown,
    Value,
};
use crate::jobs::play::Step::{Back, Count, Finish, Job, Poll, Recall, Stop, Take, Wake};
use crate::jobs::play::{Reply, Room, Step};
use mea_test_support::differs_at;

// One permit, two queued jobs, one result: who is full, who starts, and who is woken at the end.
const JOBS_ARE_FINISHED_AND_THE_SERVICE_ENDS: &[(Step, Reply)] = &[
    (Job(0, 1, 10), Running),
    (Job(1, 1, 11), Queued),
    (Job(2, 2, 12), Queued),
    (Job(3, 3, 13), Full),
    (Finish(0, 5), Starts(1)),
    (Finish(1, 6), Full),
    (Take, Pair(0, 5)),
    (Finish(1, 6), Starts(2)),
    (Stop, Done),
    (Wake, Nothing),
    (Back, Nothing),
    (Poll(9), Pending),
    (Finish(2, 7), Full),
    (Take, Pair(1, 6)),
    (Finish(2, 7), Done),
    (Wake, Value(9)),
    (Wake, Nothing),
    (Poll(8), Ready),
    (Job(14, 1, 1), Stopped),
    (Count, Counted(3, 0, 0, 3, 0)),
];

#[test]
fn jobs_are_finished_and_the_service_ends(rt: HostRuntime) {
    let room = Room::new(rt.alloc(), 1, 2, 1).expect(&rt, "memory");
    assert_eq!(rt;
        differs_at(room, JOBS_ARE_FINISHED_AND_THE_SERVICE_ENDS),
        None
    );
}

// A queued job is recalled once, and what is queued at the stop is handed back once.
const JOBS_ARE_RETURNED: &[(Step, Reply)] = &[
    (Job(0, 1, 10), Running),
    (Job(1, 1, 11), Queued),
    (Job(2, 1, 12), Queued),
    (Recall(1), Value(11)),
    (Recall(1), Unknown),
    (Stop, Done),
    (Wake, Nothing),
    (Back, Pair(2, 12)),
    (Back, Nothing),
    (Finish(0, 1), Done),
    (Count, Counted(3, 0, 0, 1, 2)),
];

#[test]
fn jobs_are_returned(rt: HostRuntime) {
    let room = Room::new(rt.alloc(), 1, 3, 2).expect(&rt, "memory");
    assert_eq!(rt; differs_at(room, JOBS_ARE_RETURNED), None);
}

// The key with the fewest running jobs goes first, and of its jobs the least number.
const THE_KEY_WITH_FEWEST_RUNNING_JOBS_GOES_FIRST: &[(Step, Reply)] = &[
    (Job(0, 1, 36), Running),
    (Job(1, 1, 6), Running),
    (Job(2, 1, 32), Queued),
    (Job(3, 0, 18), Queued),
    (Finish(0, 32), Starts(3)),
    (Finish(3, 1), Full),
];

#[test]
fn the_key_with_fewest_running_jobs_goes_first(rt: HostRuntime) {
    let room = Room::new(rt.alloc(), 2, 2, 1).expect(&rt, "memory");
    assert_eq!(rt;
        differs_at(room, THE_KEY_WITH_FEWEST_RUNNING_JOBS_GOES_FIRST),
        None
    );
}

// A stop with no running job tells the end at once, and hands the queued ones back by their numbers.
const A_STOP_HANDS_ALL_QUEUED_JOBS_BACK: &[(Step, Reply)] = &[
    (Job(3, 7, 1), Running),
    (Job(5, 7, 2), Queued),
    (Job(8, 6, 3), Queued),
    (Job(9, 7, 4), Queued),
    (Poll(4), Pending),
    (Poll(5), Pending),
    (Recall(3), Unknown),
    (Stop, Done),
    (Stop, Done),
    (Wake, Nothing),
    (Finish(5, 1), Unknown),
    (Recall(5), Unknown),
    (Back, Pair(5, 2)),
    (Finish(3, 1), Done),
    (Wake, Value(5)),
    (Back, Pair(8, 3)),
    (Back, Pair(9, 4)),
    (Back, Nothing),
    (Stop, Done),
    (Wake, Nothing),
    (Take, Pair(3, 1)),
    (Take, Nothing),
    (Count, Counted(4, 0, 0, 1, 3)),
];

#[test]
fn a_stop_hands_all_queued_jobs_back(rt: HostRuntime) {
    let room = Room::new(rt.alloc(), 1, 9, 1).expect(&rt, "memory");
    assert_eq!(rt; differs_at(room, A_STOP_HANDS_ALL_QUEUED_JOBS_BACK), None);
}
