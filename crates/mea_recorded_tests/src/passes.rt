ghost use Rattle.std.specs.Prelude.{◌≡◌};

use mea_events::SemEvent;
use mea_family::Stop;
use mea_recorded::{Noted, Pass, Receipt, RecordedSemaphore, Refused};
use std::alloc::Global;
use std::marker::Brand;
use std::process::Abort;
use std::sync::Wait;
use std::sync::ledger::{Blank, Ledger};

// What an event is told. It has no clauses, so that no test carries what the semaphore promises.
fn told<L: Ledger, R: Wait>(
    rt: &R,
    semaphore: &RecordedSemaphore<L>,
    pass: &mut Pass<L>,
    event: SemEvent,
) -> Result<Receipt, Refused> {
    semaphore.act(rt, pass, &event)
}

// A permit is taken and ended; between the two an event is refused.
fn steps<L: Ledger, R: Wait + Abort>(rt: &R, semaphore: &RecordedSemaphore<L>, pass: &mut Pass<L>) {
    pass.reserve(2).expect(rt, "room for two receipts");
    let taken = told(rt, semaphore, pass, SemEvent::Try(0, 1)).expect(rt, "a permit");
    let refused = told(rt, semaphore, pass, SemEvent::End(99));
    assert_eq!(rt;
        refused,
        Err(Refused {
            stop: Stop::Unknown,
            at: 2
        })
    );
    let ended = told(rt, semaphore, pass, SemEvent::End(1)).expect(rt, "an end");
    assert_eq!(rt; (taken.number, ended.number), (1, 2));
    let noted = [
        Noted {
            asked: SemEvent::Try(0, 1),
            receipt: taken,
        },
        Noted {
            asked: SemEvent::End(1),
            receipt: ended,
        },
    ];
    assert_eq!(rt; pass.noted(), noted.as_slice());
}

fn plays<L: Ledger, R: Wait + Abort>(rt: &R, alloc: Global, blank: Blank)
    requires name { blank.name ≡ L.name }
    requires parts { (blank.parts ≡ L.parts) × (L.parts ≡ 1) }
{
    let (semaphore, mut pass) = RecordedSemaphore::<L>::new(alloc, blank, 1, 1).expect(
        rt, "memory",
    );
    steps(rt, &semaphore, &mut pass);
}

// Want of memory is refused by no clause, and the clauses of the act under the lock do not speak of this call.
#[test]
fn a_pass_notes_what_was_played_and_not_what_was_refused(rt: HostRuntime) {
    plays::<Brand, HostRuntime>(&rt, rt.alloc(), Blank::new(1));
}
