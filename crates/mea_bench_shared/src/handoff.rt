use std::sync::atomic::AtomicBool;
use std::sync::atomic::Ordering::SeqCst;
use std::sync::{Mutex, Wait};
use std::thread;

/// A place where one thread leaves things, one at a time, for another to take.
pub struct Handoff<S> {
    left: Mutex<Option<S>>,
    is_over: AtomicBool,
}

impl<S> Handoff<S> {
    /// One where nothing was left.
    pub fn new() -> Self {
        Handoff {
            left: Mutex::new(None),
            is_over: AtomicBool::new(false),
        }
    }

    /// Leaves a thing; what nobody took comes back.
    pub fn leave<R: Wait>(&self, rt: &R, thing: S) -> Option<S> {
        self.left.lock(rt).replace(thing)
    }

    /// Says that nothing more is left here.
    pub fn finish(&self) {
        self.is_over.store(true, SeqCst);
    }

    /// Takes what is left next, or None where nothing more is.
    pub fn take<R: Wait>(&self, rt: &R) -> Option<S> {
        for _ in rt.forever() {
            let is_over = self.is_over.load(SeqCst);
            let left = self.left.lock(rt).take();
            match left {
                Some(thing) => return Some(thing),
                None if is_over => return None,
                None => {}
            }
            thread::yield_now();
        }
        None
    }

    /// What nobody took.
    pub fn into_left(self) -> Option<S> {
        let Handoff { left, is_over: _ } = self;
        left.into_inner()
    }
}
