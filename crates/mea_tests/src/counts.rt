use mea_test_support::{Count, count};
use std::process::Abort;

/// A count of no wakes.
pub(crate) fn bell(rt: &(impl Abort + AllocGlobal)) -> Count {
    count(rt.alloc()).expect(rt, "memory")
}
