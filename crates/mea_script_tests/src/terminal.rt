use crate::ran;
use crate::tests::DoorProgram;
use mea_io::{Failed, PutFault, Sink, Source};
use mea_script::Status;
use std::cell::Cell;
use std::process::Abort;

/// How many bytes a screen takes at a time.
const MOST: usize = 4;

/// Gives one piece of a script at a time, as a terminal does, and looks at each call whether every line that has ended is
/// answered.
#[derive(Drop)]
struct Keyboard<'a> {
    pieces: &'a [&'a str],
    asked: usize,
    ended: u64,
    // How many lines the screen shows.
    shown: &'a Cell<u64>,
    is_answered: bool,
}

impl Source for Keyboard<'_> {
    ghost use Rattle.std.specs.Prelude.{None};

    ghost left = { λ _. None };

    ghost faults = { λ _. 0 };

    fn take(&mut self, into: &mut [u8]) -> Result<usize, Failed> {
        if self.shown.get() != self.ended {
            self.is_answered = false;
        }
        let at = self.asked;
        self.asked = at.saturating_add(1);
        let Some(piece) = self.pieces.get(at) else {
            return Ok(0);
        };
        let piece = piece.as_bytes();
        let count = piece.len().min(into.len());
        into[..count].copy_from_slice(&piece[..count]);
        self.ended = self.ended.saturating_add(lines_in(&piece[..count]));
        Ok(count)
    }
}

/// Takes a few bytes at a time, and fails after so many calls.
#[derive(Drop)]
struct Screen<'a> {
    shown: &'a Cell<u64>,
    calls: u64,
    faults: u64,
}

impl Sink for Screen<'_> {
    ghost use Rattle.std.specs.Prelude.{None};

    ghost taken = { λ _. None };

    ghost faults = { λ s. s.faults };

    fn put(&mut self, piece: &[u8]) -> Result<usize, PutFault> {
        if self.calls == 0 {
            self.faults = self.faults.saturating_add(1);
            return Err(PutFault::Failed);
        }
        self.calls -= 1;
        let count = piece.len().min(MOST);
        let shown = self.shown.get();
        self.shown
            .set(shown.saturating_add(lines_in(&piece[..count])));
        Ok(count)
    }
}

// How many newlines these bytes have.
fn lines_in(bytes: &[u8]) -> u64 {
    let mut lines = 0u64;
    for byte in bytes {
        if *byte == b'\n' {
            lines = lines.saturating_add(1);
        }
    }
    lines
}

/// What is typed, how many writes succeed, how the script ends then, and how many pieces were asked for.
struct Row {
    pieces: &'static [&'static str],
    writes: u64,
    status: Status,
    asked: usize,
}

const ROWS: &[Row] = &[
    // Line by line, to the end.
    Row {
        pieces: &["open\n", "open\n", "shut\n", "open\n"],
        writes: 100,
        status: Status::Done,
        asked: 5,
    },
    // A piece ends in the middle of a line.
    Row {
        pieces: &["op", "en\nopen\nsh", "ut\n", "open"],
        writes: 100,
        status: Status::Done,
        asked: 5,
    },
    // No door is open.
    Row {
        pieces: &["open\n", "shut\n", "shut\n", "open\n"],
        writes: 100,
        status: Status::BadLine { at: 2 },
        asked: 3,
    },
    // A reply has two writes, and the second one fails.
    Row {
        pieces: &["open\n", "open\n", "shut\n", "open\n"],
        writes: 3,
        status: Status::WriteFault,
        asked: 2,
    },
];

// Types a script, and compares how it ends and how many pieces were asked for, each where every line that had ended was
// answered.
fn check(rt: &(impl Abort + AllocGlobal), row: &Row) {
    let shown = Cell::new(0u64);
    let mut source = Keyboard {
        pieces: row.pieces,
        asked: 0,
        ended: 0,
        shown: &shown,
        is_answered: true,
    };
    let mut sink = Screen {
        shown: &shown,
        calls: row.writes,
        faults: 0,
    };
    let told = ran::<DoorProgram, _, _>(rt.alloc(), &["doors"], &mut source, &mut sink);
    assert!(rt; told.expect(rt, "memory") == row.status);
    assert!(rt; source.is_answered);
    assert!(rt; source.asked == row.asked);
}

// Who types a line has the reply to it before the next one is asked for, and nothing is asked for after a write that fails.
#[test]
fn a_reply_comes_before_the_next_line(rt: HostRuntime) {
    for row in ROWS {
        check(&rt, row);
    }
}
