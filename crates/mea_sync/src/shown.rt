//! What `Debug` and `Display` show of the types here. A guard shows its value; of what stands behind a lock the name alone is
//! shown, since to look takes the handle.
use crate::access::Shows;
use crate::condvar::Condvar;
use crate::mapped::Mapped;
use crate::mutex::{LockGuard, Mutex};
use crate::rwlock::{ReadGuard, RwLock, WriteGuard};
use crate::semaphore::Semaphore;
use mea_lock_core::Part;
use std::fmt;

impl<W> fmt::Debug for Semaphore<W> {
    fn fmt<O: fmt::Write>(&self, f: &mut fmt::Formatter<O>) -> fmt::Result {
        f.write_str("Semaphore { .. }")
    }
}

impl<T, W> fmt::Debug for Mutex<T, W> {
    fn fmt<O: fmt::Write>(&self, f: &mut fmt::Formatter<O>) -> fmt::Result {
        f.write_str("Mutex { .. }")
    }
}

impl<T, W> fmt::Debug for RwLock<T, W> {
    fn fmt<O: fmt::Write>(&self, f: &mut fmt::Formatter<O>) -> fmt::Result {
        f.write_str("RwLock { .. }")
    }
}

impl<W> fmt::Debug for Condvar<W> {
    fn fmt<O: fmt::Write>(&self, f: &mut fmt::Formatter<O>) -> fmt::Result {
        f.write_str("Condvar { .. }")
    }
}

impl<H, T: fmt::Debug, W> fmt::Debug for LockGuard<H, T, W> {
    fn fmt<O: fmt::Write>(&self, f: &mut fmt::Formatter<O>) -> fmt::Result {
        fmt::Debug::fmt(&**self, f)
    }
}

impl<H, T: fmt::Display, W> fmt::Display for LockGuard<H, T, W> {
    fn fmt<O: fmt::Write>(&self, f: &mut fmt::Formatter<O>) -> fmt::Result {
        fmt::Display::fmt(&**self, f)
    }
}

impl<H, T: fmt::Debug, W> fmt::Debug for ReadGuard<H, T, W> {
    fn fmt<O: fmt::Write>(&self, f: &mut fmt::Formatter<O>) -> fmt::Result {
        fmt::Debug::fmt(&**self, f)
    }
}

impl<H, T: fmt::Display, W> fmt::Display for ReadGuard<H, T, W> {
    fn fmt<O: fmt::Write>(&self, f: &mut fmt::Formatter<O>) -> fmt::Result {
        fmt::Display::fmt(&**self, f)
    }
}

impl<H, T: fmt::Debug, W> fmt::Debug for WriteGuard<H, T, W> {
    fn fmt<O: fmt::Write>(&self, f: &mut fmt::Formatter<O>) -> fmt::Result {
        fmt::Debug::fmt(&**self, f)
    }
}

impl<H, T: fmt::Display, W> fmt::Display for WriteGuard<H, T, W> {
    fn fmt<O: fmt::Write>(&self, f: &mut fmt::Formatter<O>) -> fmt::Result {
        fmt::Display::fmt(&**self, f)
    }
}

impl<T, G: Shows<T>, P: Part<T>> fmt::Debug for Mapped<T, G, P>
where
    P::Out: fmt::Debug,
{
    fn fmt<O: fmt::Write>(&self, f: &mut fmt::Formatter<O>) -> fmt::Result {
        fmt::Debug::fmt(&**self, f)
    }
}

impl<T, G: Shows<T>, P: Part<T>> fmt::Display for Mapped<T, G, P>
where
    P::Out: fmt::Display,
{
    fn fmt<O: fmt::Write>(&self, f: &mut fmt::Formatter<O>) -> fmt::Result {
        fmt::Display::fmt(&**self, f)
    }
}
