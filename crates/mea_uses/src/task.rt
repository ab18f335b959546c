ghost use Rattle.std.specs.Prelude.{IfSome};

use mea::{End, Polled, Unpolled, Waits, Wake};
use std::process::Abort;
use std::sync::atomic::AtomicU64;
use std::sync::atomic::Ordering::SeqCst;
use std::sync::{Arc, Wait};

/// A task that is told to poll again. It counts how often it was.
#[derive(Drop)]
pub struct Task {
    calls: Arc<AtomicU64>,
}

/// What a wait keeps of a task, to tell it.
#[derive(Drop)]
pub struct Call {
    calls: Arc<AtomicU64>,
}

impl Wake for Call {
    fn wake(self) {
        self.calls.fetch_add(1, SeqCst);
    }
}

impl Task {
    /// A task that nobody has told.
    pub fn new(rt: &(impl Abort + AllocGlobal)) -> Self {
        Task {
            calls: Arc::new(rt.alloc(), AtomicU64::new(0)).expect(rt, "memory"),
        }
    }

    /// How often it was told.
    pub fn calls(&self) -> u64 {
        self.calls.load(SeqCst)
    }

    /// What the task gives to a wait that it polls by itself.
    pub fn waker(&self, rt: &impl Abort) -> Call {
        Call {
            calls: Arc::try_clone(&self.calls).expect(rt, "memory"),
        }
    }

    /// Polls a wait: what it gives, or the wait where it goes on; both None where there is no memory.
    pub fn poll<R: Wait, F: Waits<Call, O>, O>(&self, rt: &R, wait: F) -> (Option<O>, Option<F>)
        requires { F.can_poll wait }
        ensures { IfSome result.1 F.can_poll }
    {
        let Ok(calls) = Arc::try_clone(&self.calls) else {
            wait.end(rt);
            return (None, None);
        };
        match wait.poll(rt, Call { calls }) {
            Ok(Polled::Ready(output)) => (Some(output), None),
            Ok(Polled::Pending(wait)) => (None, Some(wait)),
            Err(
                Unpolled {
                    future,
                    waker: _,
                    fault: _,
                },
            ) => {
                future.end(rt);
                (None, None)
            }
        }
    }

    /// What a wait gives that is ready now; one that is not is given up.
    pub fn now<R: Wait, F: Waits<Call, O>, O>(&self, rt: &R, wait: F) -> Option<O>
        requires { F.can_poll wait }
    {
        let (output, wait) = self.poll(rt, wait);
        if let Some(wait) = wait {
            wait.end(rt);
        }
        output
    }

    /// What a wait gives now that went on before, if there is one; one that goes on is given up.
    pub fn again<R: Wait, F: Waits<Call, O>, O>(&self, rt: &R, wait: Option<F>) -> Option<O>
        requires { IfSome wait F.can_poll }
    {
        self.now(rt, wait?)
    }

    /// A wait that goes on now; what one that is ready gives is dropped.
    pub fn later<R: Wait, F: Waits<Call, O>, O: Drop>(&self, rt: &R, wait: F) -> Option<F>
        requires { F.can_poll wait }
        ensures { IfSome result F.can_poll }
    {
        let (_output, wait) = self.poll(rt, wait);
        wait
    }

    /// A wait that goes on now; what one that is ready gives is ended.
    pub fn queues<R: Wait, F: Waits<Call, O>, O: End>(&self, rt: &R, wait: F) -> Option<F>
        requires { F.can_poll wait }
        ensures { IfSome result F.can_poll }
    {
        let (output, wait) = self.poll(rt, wait);
        if let Some(output) = output {
            output.end(rt);
        }
        wait
    }
}
