ghost use Rattle.std.specs.Prelude.{◌≡◌};

use mea_events::{Event, SemEvent};
use mea_family::Answer;
use mea_lines::event_of_line;
use mea_recorded::{Pass, Recorded, RecordedSemaphore};
use std::alloc::{AllocError, AllocGlobal, Global};
use std::marker::Brand;
use std::process::Abort;
use std::sync::Wait;
use std::sync::ledger::{Blank, Ledger};
use std::thread;
use std::thread::Threads;

// Waits for the one permit, and gives it back. Who has not got it at the third look gives up.
fn work<L: Ledger, R: Wait + Abort>(
    rt: &R,
    semaphore: &RecordedSemaphore<L>,
    waker: u64,
    pass: Pass<L>,
) -> Pass<L> {
    let mut pass = pass;
    let asked = semaphore.act(rt, &mut pass, &SemEvent::Acq(0, 1));
    let future = asked.ok().expect(rt, "a future").number;
    // The future while it waits, and the permit from the poll on that got it.
    let mut held = future;
    for _ in 0..3u8 {
        let polled = semaphore.act(rt, &mut pass, &SemEvent::Poll(future, waker));
        let receipt = polled.ok().expect(rt, "an answer");
        if receipt.answer == Answer::Ready {
            held = receipt.number;
            break;
        }
        thread::yield_now();
    }
    let ended = semaphore.act(rt, &mut pass, &SemEvent::End(held));
    ended.ok().expect(rt, "an end");
    pass
}

// What two threads played on a semaphore of one permit.
fn history<L: Ledger + Send + Sync, R: Threads + Wait + Sync + AllocGlobal + Abort>(
    rt: &R,
    blank: Blank,
) -> Recorded
    requires name { blank.name ≡ L.name }
    requires parts { (blank.parts ≡ L.parts) × (L.parts ≡ 2) }
{
    let made = RecordedSemaphore::<L>::new(rt.alloc(), blank, 2, 1);
    let (semaphore, mut one) = made.ok().expect(rt, "memory");
    let two = semaphore.split(&mut one);
    let (one, two) = thread::join(
        rt,
        || work(rt, &semaphore, 7, one),
        || work(rt, &semaphore, 8, two),
    );
    assert!(rt; one.parts() == 1);
    assert!(rt; two.parts() == 1);
    let mut passes = Vec::new(rt.alloc());
    passes.push(one).expect(rt, "memory");
    passes.push(two).expect(rt, "memory");
    semaphore.close(passes).ok().expect(rt, "a history")
}

// The line of an event of semaphores, without its newline: a word, and one number or two.
fn line_of(alloc: Global, event: &SemEvent) -> Result<String, AllocError> {
    let (word, first, second) = match *event {
        SemEvent::New(n) => ("new", n, None),
        SemEvent::Free(s) => ("free", s, None),
        SemEvent::Forget(s, n) => ("forget", s, Some(n)),
        SemEvent::Forgetx(s, n) => ("forgetx", s, Some(n)),
        SemEvent::Release(s, n) => ("release", s, Some(n)),
        SemEvent::Try(s, n) => ("try", s, Some(n)),
        SemEvent::Tryo(s, n) => ("tryo", s, Some(n)),
        SemEvent::Tryf(s, n) => ("tryf", s, Some(n)),
        SemEvent::Tryof(s, n) => ("tryof", s, Some(n)),
        SemEvent::Acq(s, n) => ("acq", s, Some(n)),
        SemEvent::Acqo(s, n) => ("acqo", s, Some(n)),
        SemEvent::Acqf(s, n) => ("acqf", s, Some(n)),
        SemEvent::Acqof(s, n) => ("acqof", s, Some(n)),
        SemEvent::Poll(f, w) => ("poll", f, Some(w)),
        SemEvent::End(x) => ("end", x, None),
        SemEvent::Lose(p) => ("lose", p, None),
        SemEvent::Merge(p, q) => ("merge", p, Some(q)),
        SemEvent::Split(p, n) => ("split", p, Some(n)),
        SemEvent::Size(p) => ("size", p, None),
        SemEvent::Endsem(s) => ("endsem", s, None),
        SemEvent::Ledger(s) => ("ledger", s, None),
        SemEvent::Close(s) => ("close", s, None),
        SemEvent::Closed(s) => ("closed", s, None),
    };
    match second {
        Some(second) => format!(in alloc; "{word} {first} {second}"),
        None => format!(in alloc; "{word} {first}"),
    }
}

// A history as a script: its entry n is line n.
fn script_of(alloc: Global, recorded: &Recorded) -> Result<String, AllocError> {
    let mut script = String::new(alloc);
    for number in 0..recorded.entries() {
        if let Some(event) = recorded.entry(number) {
            script.push_str(line_of(alloc, event)?.as_str())?;
            script.push_str("\n")?;
        }
    }
    Ok(script)
}

// Runs it. The ghost members are picked by `ghosts-history g a = record { name = a.blank.name; parts = a.blank.parts }` in its
// Invariants.antt.
#[test]
fn a_history_is_a_script(rt: HostRuntime) {
    let recorded = history::<Brand, HostRuntime>(&rt, Blank::new(2));
    let script = script_of(rt.alloc(), &recorded).expect(&rt, "memory");
    // Who reads the script finds the same events in the same order.
    let mut number = 0u64;
    for line in script.lines() {
        let event = event_of_line(line.as_bytes());
        assert!(rt; event == recorded.entry(number).copied().map(Event::Sem));
        number = number.wrapping_add(1);
    }
    assert!(rt; number == recorded.entries());
}
