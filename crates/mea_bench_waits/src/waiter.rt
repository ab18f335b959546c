use crate::fault::Fault;
use mea::{Polled, Unpolled, Waits, Wake};
use std::alloc::Global;
use std::sync::atomic::AtomicBool;
use std::sync::atomic::Ordering::SeqCst;
use std::sync::{Arc, Wait};
use std::thread;

/// Tells a thread that waits to poll again.
#[derive(Drop)]
pub struct Bell(Arc<AtomicBool>);

impl Wake for Bell {
    fn wake(self) {
        self.0.store(true, SeqCst);
    }
}

/// A thread that waits: it polls again once its bell has rung, and yields until then.
#[derive(Drop)]
pub struct Waiter {
    is_rung: Arc<AtomicBool>,
}

impl Waiter {
    /// One whose bell has not rung.
    pub fn new(alloc: Global) -> Result<Self, Fault> {
        match Arc::new(alloc, AtomicBool::new(false)) {
            Ok(is_rung) => Ok(Waiter { is_rung }),
            Err(_) => Err(Fault::NoMemory),
        }
    }

    /// What a wait gives, once it is ready.
    pub fn wait<R: Wait, F: Waits<Bell, O>, O>(&self, rt: &R, wait: F) -> Result<O, Fault>
        requires { F.can_poll wait }
    {
        let mut wait = wait;
        for _ in rt.forever() {
            let Ok(bell) = self.bell() else {
                break;
            };
            match wait.poll(rt, bell) {
                Ok(Polled::Ready(output)) => return Ok(output),
                Ok(Polled::Pending(back)) => wait = back,
                Err(
                    Unpolled {
                        future,
                        waker: _,
                        fault: _,
                    },
                ) => {
                    future.end(rt);
                    return Err(Fault::NoMemory);
                }
            }
            self.rest(rt);
        }
        wait.end(rt);
        Err(Fault::NoMemory)
    }

    /// A bell of this thread.
    pub fn bell(&self) -> Result<Bell, Fault> {
        match Arc::try_clone(&self.is_rung) {
            Ok(is_rung) => Ok(Bell(is_rung)),
            Err(_) => Err(Fault::NoMemory),
        }
    }

    /// Yields until the bell has rung.
    pub fn rest<R: Wait>(&self, rt: &R) {
        for _ in rt.forever() {
            if self.is_rung.swap(false, SeqCst) {
                return;
            }
            thread::yield_now();
        }
    }
}
