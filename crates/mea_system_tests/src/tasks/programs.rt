use crate::programs::Tasks;
use crate::rows::{Row, check_rows};
use mea_script::Status;

const WORDS: &[&str] = &["tasks"];

const ROWS: &[Row] = &[
    // A release wakes who waits.
    Row {
        words: WORDS,
        script: "sem 1/task/take 0 1/give 0 1/task/take 0 2/give 0 1/task/give 0 1",
        text: "task 0 finished/task 1 finished/task 2 finished/polls 4/ledger 1 3 0 1 0 0 3/done 9",
        status: Status::Done,
    },
    // Two tasks wait for each other.
    Row {
        words: WORDS,
        script: "sem 1/sem 1/task/take 0 1/yield/take 1 1/task/take 1 1/yield/take 0 1",
        text: "task 0 waits 1 1/task 1 waits 0 1/polls 4/ledger 1 0 0 0 0 0 1/ledger 1 0 0 0 0 0 1/done 10",
        status: Status::Done,
    },
    // A release is refused where the permits would pass their greatest number.
    Row {
        words: WORDS,
        script: "sem 18446744073709551615/task/give 0 1",
        text: "task 0 failed/polls 1/ledger 18446744073709551615 0 0 18446744073709551615 0 0 0/done 3",
        status: Status::Done,
    },
    // A semaphore may be made between the steps of a task, and has the next place.
    Row {
        words: WORDS,
        script: "sem 1/task/take 0 1/sem 5/take 1 5",
        text: "task 0 finished/polls 1/ledger 1 0 0 0 0 0 1/ledger 5 0 0 0 0 0 5/done 5",
        status: Status::Done,
    },
    // A task without steps takes one turn, and one that yields last takes a further one.
    Row {
        words: WORDS,
        script: "task/task/yield/task/yield/yield",
        text: "task 0 finished/task 1 finished/task 2 finished/polls 6/done 6",
        status: Status::Done,
    },
    // A task that yields stands behind the one that it woke, which takes the permit first.
    Row {
        words: WORDS,
        script: "sem 0/sem 1/task/take 0 1/take 1 1/task/give 0 1/yield/take 1 1",
        text: "task 0 finished/task 1 waits 1 1/polls 4/ledger 0 1 0 0 0 0 1/ledger 1 0 0 0 0 0 1/done 9",
        status: Status::Done,
    },
    // One that is woken stands behind all that are queued.
    Row {
        words: WORDS,
        script: "sem 0/sem 1/task/take 0 1/take 1 1/task/give 0 1/task/take 1 1",
        text: "task 0 waits 1 1/task 1 finished/task 2 finished/polls 4/ledger 0 1 0 0 0 0 1/ledger 1 0 0 0 0 0 1/done 9",
        status: Status::Done,
    },
    // Those that one release wakes are queued in the order in which they waited.
    Row {
        words: WORDS,
        script: "sem 0/sem 1/task/take 0 1/take 1 1/task/take 0 1/take 1 1/task/give 0 2",
        text: "task 0 finished/task 1 waits 1 1/task 2 finished/polls 5/ledger 0 2 0 0 0 0 2/ledger 1 0 0 0 0 0 1/done 10",
        status: Status::Done,
    },
    // To take nothing is ready at once, also beside one that waits, and to give nothing wakes nobody.
    Row {
        words: WORDS,
        script: "sem 0/task/take 0 1/task/take 0 0/give 0 0",
        text: "task 0 waits 0 1/task 1 finished/polls 2/ledger 0 0 0 0 0 0 0/done 6",
        status: Status::Done,
    },
    // To give nothing is never refused.
    Row {
        words: WORDS,
        script: "sem 18446744073709551615/task/give 0 0",
        text: "task 0 finished/polls 1/ledger 18446744073709551615 0 0 18446744073709551615 0 0 0/done 3",
        status: Status::Done,
    },
    // One that waits tells its demand, also where it was paid in part.
    Row {
        words: WORDS,
        script: "sem 2/task/take 0 5",
        text: "task 0 waits 0 5/polls 1/ledger 2 0 0 0 0 2 0/done 3",
        status: Status::Done,
    },
    // What a task took is forgotten, and a task that is finished gives nothing back.
    Row {
        words: WORDS,
        script: "sem 3/task/take 0 2",
        text: "task 0 finished/polls 1/ledger 3 0 0 1 0 0 2/done 3",
        status: Status::Done,
    },
    // A release that is refused changes nothing: what the task took stays taken, and the others go on.
    Row {
        words: WORDS,
        script: "sem 18446744073709551615/sem 1/task/take 1 1/give 0 1/give 1 1/task/give 1 1",
        text: "task 0 failed/task 1 finished/polls 2/ledger 18446744073709551615 0 0 18446744073709551615 0 0 0/ledger 1 1 0 1 0 0 1/done 8",
        status: Status::Done,
    },
    // Tallies may pass 64 bits.
    Row {
        words: WORDS,
        script: "sem 18446744073709551615/task/take 0 18446744073709551615/give 0 18446744073709551615/take 0 18446744073709551615/give 0 18446744073709551615",
        text: "task 0 finished/polls 1/ledger 18446744073709551615 36893488147419103230 0 18446744073709551615 0 0 36893488147419103230/done 6",
        status: Status::Done,
    },
    // The script of the folder examples/ with its text: three workers share two connections, and a fourth task waits for all.
    Row {
        words: WORDS,
        script: "sem 2/sem 0/task/take 0 1/yield/give 0 1/give 1 1/task/take 0 1/yield/give 0 1/give 1 1/task/take 0 1/yield/give 0 1/give 1 1/task/take 1 3",
        text: "task 0 finished/task 1 finished/task 2 finished/task 3 finished/polls 9/ledger 2 3 0 2 0 0 3/ledger 0 3 0 0 0 0 3/done 19",
        status: Status::Done,
    },
];

#[test]
fn programs(rt: HostRuntime) {
    check_rows::<Tasks>(&rt, ROWS);
}
