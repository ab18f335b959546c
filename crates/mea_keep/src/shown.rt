//! What `Debug` shows of the types here: of a cell its value, which takes no lock, and of the others the name alone. What stands
//! behind a lock is not shown, since to look takes the handle.
use crate::once::{Once, OnceCell, OnceMap};
use crate::singleflight::Group;
use mea_base::Wake;
use std::fmt;
use std::hash::{BuildHasher, Hash};

impl<W> fmt::Debug for Once<W> {
    fn fmt<O: fmt::Write>(&self, f: &mut fmt::Formatter<O>) -> fmt::Result {
        f.write_str("Once { .. }")
    }
}

impl<T: fmt::Debug + Drop, W: Wake> fmt::Debug for OnceCell<T, W> {
    fn fmt<O: fmt::Write>(&self, f: &mut fmt::Formatter<O>) -> fmt::Result {
        match self.get() {
            Some(value) => write!(f, "OnceCell {{ value: Some({value:?}) }}"),
            None => f.write_str("OnceCell { value: None }"),
        }
    }
}

impl<K: Eq + Hash, V, S: BuildHasher, W> fmt::Debug for OnceMap<K, V, S, W> {
    fn fmt<O: fmt::Write>(&self, f: &mut fmt::Formatter<O>) -> fmt::Result {
        f.write_str("OnceMap { .. }")
    }
}

impl<K: Eq + Hash, V, S: BuildHasher, W> fmt::Debug for Group<K, V, S, W> {
    fn fmt<O: fmt::Write>(&self, f: &mut fmt::Formatter<O>) -> fmt::Result {
        f.write_str("Group { .. }")
    }
}
