use itoa::Buffer;
use std::alloc::{AllocError, Global};

/// What is played of a family: its name in the report, the lines that come first, and a round of lines, which is played again
/// and again, on things of its own but for what the first lines made. Each line ends with a slash, and a capital letter is
/// the number of a line of the same round: A of its first, B of its second.
pub struct Work {
    pub name: &'static str,
    pub start: &'static str,
    pub round: &'static str,
}

/// All works, in the order in which they are played.
pub const WORKS: [Work; 20] = [
    // A permit is taken and given back, and nobody waits.
    Work {
        name: "semaphore, a permit",
        start: "new 1/",
        round: "try 0 1/end A/",
    },
    // An acquire waits, is paid and becomes a permit, which is given up.
    Work {
        name: "semaphore, a wait",
        start: "new 0/",
        round: "acq 0 1/poll A A/release 0 1/poll A A/lose D/",
    },
    // Two arrivals complete a round.
    Work {
        name: "barrier",
        start: "bar.new 2/",
        round: "bar.wait 0/bar.poll A A/bar.wait 0/bar.poll C A/bar.poll A A/",
    },
    // From its making to its end.
    Work {
        name: "latch",
        start: "",
        round: "lat.new 1/lat.wait A/lat.poll B A/lat.down A/lat.poll B A/lat.drop A/",
    },
    // Two handles and a future, from their making to their end.
    Work {
        name: "wait group",
        start: "",
        round: "wg.new/wg.clone A/wg.into A/wg.poll C A/wg.end B/wg.poll C A/",
    },
    // From its making to its end.
    Work {
        name: "shutdown",
        start: "",
        round: "sd.new/sd.is A/sd.poll B A/sd.signal A/sd.poll B A/sd.endr A/sd.ends A/",
    },
    // It goes from a guard to a future that waits for it.
    Work {
        name: "mutex",
        start: "mx.new 0/",
        round: "mx.try 0/mx.lock 0/mx.poll B A/mx.end A/mx.poll B A/mx.end E/",
    },
    // Two read beside each other, and one writes after them.
    Work {
        name: "reader-writer lock",
        start: "rw.new 0/",
        round: "rw.tryr 0/rw.tryr 0/rw.write 0/rw.poll C A/rw.end A/rw.end B/rw.poll C A/rw.end G/",
    },
    // A guard waits, is told and has the mutex again.
    Work {
        name: "condition variable",
        start: "mx.new 0/cv.new/",
        round: "mx.try 0/cv.wait 1 A/cv.poll B A/cv.one 1/cv.poll B A/mx.end E/",
    },
    // A message fills the channel, and a send waits for its place.
    Work {
        name: "bounded channel",
        start: "mb.new 1/",
        round: "mb.try 0 A/mb.send 0 A/mb.poll B A/mb.tryr 0/mb.poll B A/mb.tryr 0/",
    },
    // The receiver waits for a message.
    Work {
        name: "unbounded channel",
        start: "mu.new/",
        round: "mu.recv 0 A/mu.send 0 A/mu.recv 0 A/",
    },
    // Its future waits for the message, from its making to its end.
    Work {
        name: "oneshot",
        start: "",
        round: "os.new/os.into A/os.poll B A/os.send A A/os.poll B A/os.end B/",
    },
    // A future waits for a message.
    Work {
        name: "broadcast",
        start: "bc.new 8/bc.sub 0/",
        round: "bc.recv 1/bc.poll A A/bc.send 0 A/bc.poll A A/",
    },
    // A value goes in, and is looked at.
    Work {
        name: "box",
        start: "ab.new 5/ao.none/",
        round: "ab.swap 0 A/ab.get 0/ao.store 1 A/ao.take 1/",
    },
    // A future calls it and another waits, from its making to its end.
    Work {
        name: "call that runs once",
        start: "",
        round: "on.new/on.call A/on.poll B A/on.wait A/on.poll D D/on.settle B/on.poll B A/on.poll D A/on.drop A/",
    },
    // A future computes its value, from its making to its end.
    Work {
        name: "cell",
        start: "",
        round: "oc.new/oc.init A/oc.poll B A/oc.settle B A/oc.poll B A/oc.drop A/",
    },
    // A key is computed and taken out again.
    Work {
        name: "map",
        start: "om.new/",
        round: "om.compute 0 A/om.poll A A/om.settle A A/om.poll A A/om.remove 0 A/",
    },
    // Two futures share what the first of them computes.
    Work {
        name: "group",
        start: "sf.new/",
        round: "sf.work 0 A/sf.poll A A/sf.work 0 A/sf.poll C C/sf.settle A A/sf.poll A A/sf.poll C A/",
    },
    // A permit goes from one key to another that waits for it.
    Work {
        name: "admission",
        start: "fs.new 1/",
        round: "fs.try 0 A/fs.acq 0 B/fs.poll B A/fs.end A/fs.poll B A/fs.end E/",
    },
    // The same two keys in each round.
    Work {
        name: "admission, two keys",
        start: "fs.new 1/",
        round: "fs.try 0 1/fs.acq 0 2/fs.poll B A/fs.end A/fs.poll B A/fs.end E/",
    },
];

/// The script of a work with so many rounds.
pub fn script_of(alloc: Global, work: &Work, rounds: u64) -> Result<String, AllocError> {
    let mut script = String::new(alloc);
    let mut next = put_lines(&mut script, work.start, 0)?;
    for _ in 0..rounds {
        next = put_lines(&mut script, work.round, next)?;
    }
    Ok(script)
}

// Appends lines, of which the first has this number; the number of the line after them.
fn put_lines(script: &mut String, lines: &str, first: u64) -> Result<u64, AllocError> {
    let mut next = first;
    for letter in lines.chars() {
        match letter {
            '/' => {
                script.push('\n')?;
                next = next.saturating_add(1);
            }
            'A'..='Z' => put_number(script, first, u64::from(letter).saturating_sub(65))?,
            _ => script.push(letter)?,
        }
    }
    Ok(next)
}

// Appends the number of a line that stands so far behind the first one.
fn put_number(script: &mut String, first: u64, behind: u64) -> Result<(), AllocError> {
    let mut digits = Buffer::new();
    script.push_str(digits.format(first.saturating_add(behind)))
}
