use crate::rows::played;
use mea_run::Status;
use std::process::Abort;

/// A first part, a middle part so many times, and a last part.
struct Parts(&'static [u8], &'static [u8], u32, &'static [u8]);

/// A script with its text and its status.
struct Row {
    script: Parts,
    text: Parts,
    status: Status,
}

fn bytes_of_parts(rt: &(impl Abort + AllocGlobal), parts: &Parts) -> Vec<u8> {
    let Parts(first, middle, times, last) = *parts;
    let mut bytes = Vec::from_slice(rt.alloc(), first).expect(rt, "memory");
    for _ in 0..times {
        bytes.extend_from_slice(middle).expect(rt, "memory");
    }
    bytes.extend_from_slice(last).expect(rt, "memory");
    bytes
}

// Plays each script, with so many bytes at most in each read and in each write.
fn check_parts(rt: &(impl Abort + AllocGlobal), rows: &[Row], pieces: (usize, usize)) {
    for row in rows {
        let text = bytes_of_parts(rt, &row.text);
        let script = bytes_of_parts(rt, &row.script);
        let (status, written) = played(rt, script, pieces);
        assert!(rt; written == text);
        assert!(rt; status == row.status);
    }
}

const LONG: &[Row] = &[
    // 16,777,221 bytes: the last of the 2,396,746 lines is cut.
    Row {
        script: Parts(b"new 1\n", b"free 0\n", 2_396_745, b""),
        text: Parts(b"made\n", b"free 1\n", 2_396_744, b"long 2396745\n"),
        status: Status::TooLong,
    },
    // 16,777,216 bytes, with no newline after the last line.
    Row {
        script: Parts(b"new 1000\n", b"free 0\n", 2_396_743, b"free 0"),
        text: Parts(b"made\n", b"free 1000\n", 2_396_744, b"done 2396745\n"),
        status: Status::Done,
    },
    // One byte more, a newline: so the last line is cut.
    Row {
        script: Parts(b"new 1000\n", b"free 0\n", 2_396_744, b""),
        text: Parts(b"made\n", b"free 1000\n", 2_396_743, b"long 2396744\n"),
        status: Status::TooLong,
    },
];

#[test]
fn scripts_are_as_long_as_may_be(rt: HostRuntime) {
    check_parts(&rt, LONG, (usize::MAX, usize::MAX));
}

// One line, as long as a script may be, and longer.
const ONE_LINE: &[Row] = &[
    Row {
        script: Parts(b"", b"9", 16_777_216, b""),
        text: Parts(b"bad 0\n", b"", 0, b""),
        status: Status::BadLine { at: 0 },
    },
    Row {
        script: Parts(b"", b"9", 16_777_217, b""),
        text: Parts(b"long 0\n", b"", 0, b""),
        status: Status::TooLong,
    },
    Row {
        script: Parts(b"", b"9", 16_777_216, b"\n"),
        text: Parts(b"long 0\n", b"", 0, b""),
        status: Status::TooLong,
    },
    Row {
        script: Parts(b"9\n", b"9", 16_777_216, b""),
        text: Parts(b"bad 0\n", b"", 0, b""),
        status: Status::BadLine { at: 0 },
    },
];

#[test]
fn a_line_is_long(rt: HostRuntime) {
    check_parts(&rt, ONE_LINE, (usize::MAX, usize::MAX));
}

const ENDS: &[Row] = &[
    // The last line needs no newline.
    Row {
        script: Parts(b"", b"", 0, b""),
        text: Parts(b"done 0\n", b"", 0, b""),
        status: Status::Done,
    },
    Row {
        script: Parts(b"new 1\nfree 0", b"", 0, b""),
        text: Parts(b"made\nfree 1\ndone 2\n", b"", 0, b""),
        status: Status::Done,
    },
    Row {
        script: Parts(b"\n", b"", 0, b""),
        text: Parts(b"bad 0\n", b"", 0, b""),
        status: Status::BadLine { at: 0 },
    },
    // A line is longer than what is kept of it.
    Row {
        script: Parts(b"", b"9", 200, b"\n"),
        text: Parts(b"bad 0\n", b"", 0, b""),
        status: Status::BadLine { at: 0 },
    },
    Row {
        script: Parts(b"", b"9", 200, b""),
        text: Parts(b"bad 0\n", b"", 0, b""),
        status: Status::BadLine { at: 0 },
    },
    Row {
        script: Parts(b"", b"9", 200, b"\nnew 1\n"),
        text: Parts(b"bad 0\n", b"", 0, b""),
        status: Status::BadLine { at: 0 },
    },
];

// A few bytes at a time.
#[test]
fn lines_end(rt: HostRuntime) {
    check_parts(&rt, ENDS, (5, 3));
}
