use crate::task::{Call, Task};
use mea::semaphore::Semaphore;
use std::sync::Wait;

// At most `burst` calls between two ticks: a call takes a token for ever, and a tick makes up for what was taken.
#[derive(Drop)]
struct Limiter {
    tokens: Semaphore<Call>,
    burst: usize,
}

impl Limiter {
    fn admits<R: Wait>(&self, rt: &R) -> bool {
        self.tokens.try_acquire_and_forget(rt, 1)
    }

    fn tick<R: Wait>(&self, rt: &R) {
        let taken = self.burst.saturating_sub(self.tokens.available_permits(rt));
        let _ = self.tokens.release(rt, taken);
    }
}

#[test]
fn a_rate_limiter(rt: HostRuntime) {
    let task = Task::new(&rt);
    let limiter = Limiter {
        tokens: Semaphore::new(rt.alloc(), 2),
        burst: 2,
    };
    assert!(rt; limiter.admits(&rt));
    assert!(rt; limiter.admits(&rt));
    assert!(rt; !limiter.admits(&rt));
    // Who can wait is told at the tick.
    let patient = task.later(&rt, limiter.tokens.acquire_and_forget(1));
    limiter.tick(&rt);
    assert!(rt; task.calls() == 1);
    assert!(rt; task.again(&rt, patient) == Some(Ok(())));
    assert!(rt; limiter.admits(&rt));
    assert!(rt; !limiter.admits(&rt));
}
