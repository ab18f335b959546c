//! What `Debug` shows of the types here: the name alone. What stands behind a lock is not shown, since to look takes the
//! handle, and nothing is asked of a key.
use crate::admission::{FairShare, SharePermit};
use crate::atomicbox::{AtomicBox, AtomicOptionBox};
use std::fmt;
use std::hash::{BuildHasher, Hash};

impl<K: Eq + Hash, W, S: BuildHasher> fmt::Debug for FairShare<K, W, S> {
    fn fmt<O: fmt::Write>(&self, f: &mut fmt::Formatter<O>) -> fmt::Result {
        f.write_str("FairShare { .. }")
    }
}

impl<H, K, W, S> fmt::Debug for SharePermit<H, K, W, S> {
    fn fmt<O: fmt::Write>(&self, f: &mut fmt::Formatter<O>) -> fmt::Result {
        f.write_str("SharePermit { .. }")
    }
}

impl<T> fmt::Debug for AtomicBox<T> {
    fn fmt<O: fmt::Write>(&self, f: &mut fmt::Formatter<O>) -> fmt::Result {
        f.write_str("AtomicBox { .. }")
    }
}

impl<T> fmt::Debug for AtomicOptionBox<T> {
    fn fmt<O: fmt::Write>(&self, f: &mut fmt::Formatter<O>) -> fmt::Result {
        f.write_str("AtomicOptionBox { .. }")
    }
}
