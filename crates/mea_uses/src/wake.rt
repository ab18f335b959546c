ghost use Rattle.std.specs.Prelude.{IfSome};

use mea::latch::Latch;
use mea::{End, Polled, Unpolled, Waits, Wake};
use std::sync::atomic::AtomicU64;
use std::sync::atomic::Ordering::SeqCst;
use std::sync::{Arc, Wait};

// A waker of one's own: the tasks to poll again are bits of a number, and each wait has the bit of its task.
#[derive(Drop)]
struct Mark {
    ready: Arc<AtomicU64>,
    bit: u64,
}

impl Wake for Mark {
    fn wake(self) {
        self.ready.fetch_or(self.bit, SeqCst);
    }
}

// Polls a wait for the task of this bit: the wait, where it goes on.
fn poll<R: Wait, F: Waits<Mark, ()>>(rt: &R, wait: F, ready: &Arc<AtomicU64>, bit: u64) -> Option<F>
    requires { F.can_poll wait }
    ensures { IfSome result F.can_poll }
{
    let Ok(ready) = Arc::try_clone(ready) else {
        wait.end(rt);
        return None;
    };
    match wait.poll(rt, Mark { ready, bit }) {
        Ok(Polled::Ready(())) => None,
        Ok(Polled::Pending(wait)) => Some(wait),
        Err(
            Unpolled {
                future,
                waker: _,
                fault: _,
            },
        ) => {
            future.end(rt);
            None
        }
    }
}

// Whether a wait is over that went on before. One that still goes on is given up.
fn is_over<R: Wait, F: Waits<Mark, ()>>(rt: &R, wait: F, ready: &Arc<AtomicU64>, bit: u64) -> bool
    requires { F.can_poll wait }
{
    match poll(rt, wait, ready, bit) {
        Some(wait) => {
            wait.end(rt);
            false
        }
        None => true,
    }
}

// Three tasks wait for one latch. It marks those that still wait, and not the one that has given up.
#[test]
fn tasks_that_are_marked(rt: HostRuntime) {
    let ready = Arc::new(rt.alloc(), AtomicU64::new(0)).expect(&rt, "memory");
    let latch = Latch::new(rt.alloc(), 1);
    let first = poll(&rt, latch.wait(), &ready, 1).expect(&rt, "a wait");
    let second = poll(&rt, latch.wait(), &ready, 2).expect(&rt, "a wait");
    let third = poll(&rt, latch.wait(), &ready, 4).expect(&rt, "a wait");
    second.end(&rt);
    latch.count_down(&rt);
    assert!(rt; ready.swap(0, SeqCst) == 5);
    assert!(rt; is_over(&rt, first, &ready, 1));
    assert!(rt; is_over(&rt, third, &ready, 4));
}
