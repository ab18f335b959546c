use mea_base::Wake;

/// Takes at most `made` wakers and wakes each, one at a time. `next` takes the lock for as long as it takes
/// one waker out, so that none is woken while a lock is held.
pub fn hand_out<W: Wake, F: FnMut() -> Option<W>>(made: usize, mut next: F)
    requires { F.IsAlwaysCallable next }
{
    for _ in 0..made {
        match next() {
            Some(waker) => waker.wake(),
            None => return,
        }
    }
}
