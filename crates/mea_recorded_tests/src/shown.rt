//! What `Debug` shows of an event. A clause tells its numbers alone: that it shows its own name, and as many numbers as it has, is
//! seen here, for each word of a script.
use mea_lines::event_of_line;
use std::alloc::{AllocError, Global};
use std::process::Abort;

// Words of one family that have as many numbers.
struct Words {
    family: &'static str,
    // The numbers in a line, and as they are shown.
    numbers: (&'static str, &'static str),
    words: &'static str,
}

const NONE: (&str, &str) = ("", "");

const ONE: (&str, &str) = (" 7", "(7)");

const TWO: (&str, &str) = (" 7 8", "(7, 8)");

const THREE: (&str, &str) = (" 7 8 9", "(7, 8, 9)");

const WORDS: &[Words] = &[
    Words {
        family: "Sem",
        numbers: ONE,
        words: "new free end lose size endsem ledger close closed",
    },
    Words {
        family: "Sem",
        numbers: TWO,
        words: "forget forgetx release try tryo tryf tryof acq acqo acqf acqof poll merge split",
    },
    Words {
        family: "Meet",
        numbers: NONE,
        words: "wg.new sd.new",
    },
    Words {
        family: "Meet",
        numbers: ONE,
        words: "bar.new bar.wait bar.end bar.drop lat.new lat.count lat.down lat.try lat.wait lat.waito lat.end lat.drop",
    },
    Words {
        family: "Meet",
        numbers: ONE,
        words: "wg.clone wg.into wg.copy wg.end sd.copys sd.copyr sd.signal sd.now sd.watch sd.is sd.iso sd.await sd.end sd.ends sd.endr",
    },
    Words {
        family: "Meet",
        numbers: TWO,
        words: "bar.poll lat.arrive lat.poll wg.poll sd.poll",
    },
    Words {
        family: "Lock",
        numbers: NONE,
        words: "cv.new",
    },
    Words {
        family: "Lock",
        numbers: ONE,
        words: "mx.new mx.lock mx.locko mx.try mx.tryo mx.get mx.end mx.peek mx.into mx.drop cv.one cv.all cv.end cv.drop",
    },
    Words {
        family: "Lock",
        numbers: ONE,
        words: "rw.new rw.read rw.reado rw.write rw.writeo rw.tryr rw.tryro rw.tryw rw.trywo rw.get rw.down rw.end rw.peek rw.into rw.drop",
    },
    Words {
        family: "Lock",
        numbers: TWO,
        words: "mx.poll mx.set mx.put rw.max rw.poll rw.set rw.put cv.wait cv.poll",
    },
    Words {
        family: "Lock",
        numbers: THREE,
        words: "cv.waitw",
    },
    Words {
        family: "Chan",
        numbers: NONE,
        words: "mu.new os.new ao.none",
    },
    Words {
        family: "Chan",
        numbers: ONE,
        words: "mb.new mb.copy mb.end mb.tryr mb.ends mb.endr bc.new bc.copys bc.sub bc.resub bc.copyr bc.try bc.recv bc.end bc.endr bc.ends",
    },
    Words {
        family: "Chan",
        numbers: ONE,
        words: "mu.copy mu.tryr mu.ends mu.endr os.ends os.closed os.closedr os.has os.try os.into os.endr os.end",
    },
    Words {
        family: "Chan",
        numbers: ONE,
        words: "ab.new ab.get ab.into ab.drop ao.new ao.clear ao.take ao.get ao.into ao.drop",
    },
    Words {
        family: "Chan",
        numbers: TWO,
        words: "mb.try mb.send mb.poll mb.recv bc.send bc.poll mu.send mu.recv os.send os.poll ab.swap ab.store ao.swap ao.store",
    },
    Words {
        family: "Share",
        numbers: ONE,
        words: "fs.new fs.free fs.waiters fs.key fs.end fs.drop",
    },
    Words {
        family: "Share",
        numbers: TWO,
        words: "fs.try fs.tryo fs.acq fs.acqo fs.poll fs.weightof",
    },
    Words {
        family: "Share",
        numbers: THREE,
        words: "fs.weight",
    },
    Words {
        family: "Once",
        numbers: NONE,
        words: "on.new oc.new om.new sf.new",
    },
    Words {
        family: "Once",
        numbers: ONE,
        words: "on.done on.call on.wait on.settle on.end on.drop om.end om.drop sf.end sf.drop",
    },
    Words {
        family: "Once",
        numbers: ONE,
        words: "oc.from oc.get oc.init oc.minit oc.end oc.peek oc.take oc.into oc.drop",
    },
    Words {
        family: "Once",
        numbers: TWO,
        words: "on.poll oc.set oc.ins oc.poll oc.settle oc.fail oc.put sf.work sf.poll sf.settle sf.fail sf.forget",
    },
    Words {
        family: "Once",
        numbers: TWO,
        words: "om.get om.compute om.poll om.settle om.fail om.discard om.remove",
    },
];

// The name of the event of a word: its parts without their dot, each with a capital.
fn name_of(alloc: Global, word: &str) -> Result<String, AllocError> {
    let mut name = String::new(alloc);
    let mut begins = true;
    for letter in word.chars() {
        if letter == '.' {
            begins = true;
        } else {
            name.push(if begins {
                letter.to_ascii_uppercase()
            } else {
                letter
            })?;
            begins = false;
        }
    }
    Ok(name)
}

// What is shown of the event of a line, if it is one.
fn shown(alloc: Global, line: &str) -> Result<Option<String>, AllocError> {
    match event_of_line(line.as_bytes()) {
        Some(event) => Ok(Some(format!(in alloc; "{event:?}")?)),
        None => Ok(None),
    }
}

// Whether the event of a word shows its family, its name and its numbers.
fn shows(alloc: Global, of: &Words, word: &str) -> Result<bool, AllocError> {
    let (family, (said, told)) = (of.family, of.numbers);
    let line = format!(in alloc; "{word}{said}")?;
    let name = name_of(alloc, word)?;
    let wanted = format!(in alloc; "{family}({name}{told})")?;
    match shown(alloc, line.as_str())? {
        Some(shown) => Ok(shown.as_str() == wanted.as_str()),
        None => Ok(false),
    }
}

// Whether all these words do so.
fn show(alloc: Global, of: &Words) -> Result<bool, AllocError> {
    let mut all = true;
    for word in of.words.split_ascii_whitespace() {
        all = shows(alloc, of, word)? && all;
    }
    Ok(all)
}

#[test]
fn an_event_shows_its_name_and_its_numbers(rt: HostRuntime) {
    for words in WORDS {
        assert!(rt; show(rt.alloc(), words).expect(&rt, "memory"));
    }
}
