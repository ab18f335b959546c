use std::sync::Wait;
use std::thread;
use std::thread::Threads;

/// What each thread of a test does with what they share.
pub(crate) trait Plays {
    fn plays<R: Wait>(&self, rt: &R, thread: u64);
}

/// Lets so many threads play; what one would do that cannot be started is done here.
pub(crate) fn on_threads<R: Threads + Wait + Sync, P: Plays + Sync>(
    rt: &R,
    threads: u64,
    place: &P,
) {
    thread::scope(thread::scope_env(), rt, |scope| {
        for thread in 0..threads {
            if scope.spawn(move || place.plays(rt, thread)).is_err() {
                place.plays(rt, thread);
            }
        }
    });
}
