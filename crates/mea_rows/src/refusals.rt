use crate::rows::{Row, check_rows};
use mea_family::Stop;
use mea_run::Status;

const CAUSES: &[Row] = &[
    // Too many permits.
    Row {
        script: "new 18446744073709551615/release 0 1",
        text: "made/stop 1 overflow",
        status: Status::Stopped {
            at: 1,
            cause: Stop::Overflow,
        },
    },
    // Too many permits, beside a debt.
    Row {
        script: "new 18446744073709551615/try 0 18446744073709551615/forgetx 0 5/release 0 5",
        text: "made/some/done/stop 3 overflow",
        status: Status::Stopped {
            at: 3,
            cause: Stop::Overflow,
        },
    },
    // A semaphore has no end.
    Row {
        script: "new 1/end 0",
        text: "made/stop 1 unknown",
        status: Status::Stopped {
            at: 1,
            cause: Stop::Unknown,
        },
    },
    // Permits of two semaphores.
    Row {
        script: "new 1/new 1/try 0 1/try 1 1/merge 2 3",
        text: "made/made/some/some/stop 4 unknown",
        status: Status::Stopped {
            at: 4,
            cause: Stop::Unknown,
        },
    },
    // A permit and itself.
    Row {
        script: "new 1/try 0 1/merge 1 1",
        text: "made/some/stop 2 unknown",
        status: Status::Stopped {
            at: 2,
            cause: Stop::Unknown,
        },
    },
    // A plain and an owned permit.
    Row {
        script: "new 2/try 0 1/tryo 0 1/merge 1 2",
        text: "made/some/some/stop 3 unknown",
        status: Status::Stopped {
            at: 3,
            cause: Stop::Unknown,
        },
    },
    // A plain permit borrows its semaphore.
    Row {
        script: "new 2/try 0 1/endsem 0",
        text: "made/some/stop 2 borrowed",
        status: Status::Stopped {
            at: 2,
            cause: Stop::Borrowed,
        },
    },
    // So does one of no permits.
    Row {
        script: "new 0/try 0 0/endsem 0",
        text: "made/some/stop 2 borrowed",
        status: Status::Stopped {
            at: 2,
            cause: Stop::Borrowed,
        },
    },
    // And a future that forgets what it takes.
    Row {
        script: "new 0/acqf 0 1/endsem 0",
        text: "made/made/stop 2 borrowed",
        status: Status::Stopped {
            at: 2,
            cause: Stop::Borrowed,
        },
    },
    // An owned permit does not, and outlives it.
    Row {
        script: "new 2/tryo 0 1/endsem 0/end 1/free 0",
        text: "made/some/done/done/stop 4 unknown",
        status: Status::Stopped {
            at: 4,
            cause: Stop::Unknown,
        },
    },
];

const LINES: &[Row] = &[
    // A leading zero.
    Row {
        script: "new 01",
        text: "bad 0",
        status: Status::BadLine { at: 0 },
    },
    // No number.
    Row {
        script: "new x",
        text: "bad 0",
        status: Status::BadLine { at: 0 },
    },
    // A blank line.
    Row {
        script: "new 1//free 0",
        text: "made/bad 1",
        status: Status::BadLine { at: 1 },
    },
    // A number past the greatest.
    Row {
        script: "new 18446744073709551616",
        text: "bad 0",
        status: Status::BadLine { at: 0 },
    },
    // A trailing space.
    Row {
        script: "new 1 ",
        text: "bad 0",
        status: Status::BadLine { at: 0 },
    },
    // Two spaces.
    Row {
        script: "new  1",
        text: "bad 0",
        status: Status::BadLine { at: 0 },
    },
    // A sign.
    Row {
        script: "new +1",
        text: "bad 0",
        status: Status::BadLine { at: 0 },
    },
    // A number is missing.
    Row {
        script: "new",
        text: "bad 0",
        status: Status::BadLine { at: 0 },
    },
    // One number too many.
    Row {
        script: "new 1 2",
        text: "bad 0",
        status: Status::BadLine { at: 0 },
    },
    // A large letter.
    Row {
        script: "New 1",
        text: "bad 0",
        status: Status::BadLine { at: 0 },
    },
    // A carriage return.
    Row {
        script: "new 1\r",
        text: "bad 0",
        status: Status::BadLine { at: 0 },
    },
    // No number, after a word that has a form without numbers.
    Row {
        script: "sd.new x",
        text: "bad 0",
        status: Status::BadLine { at: 0 },
    },
    // An event line, with nothing of that name.
    Row {
        script: "tryo 0 1",
        text: "stop 0 unknown",
        status: Status::Stopped {
            at: 0,
            cause: Stop::Unknown,
        },
    },
];

#[test]
fn events_are_refused_for_their_causes(rt: HostRuntime) {
    check_rows(&rt, CAUSES);
}

#[test]
fn lines_have_one_spelling(rt: HostRuntime) {
    check_rows(&rt, LINES);
}
