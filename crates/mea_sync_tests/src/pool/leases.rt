use mea_base::Wake;
use mea_shared_pool::Pool;
use std::process::Abort;

/// A pool of so many resources: the first is 10, and each further one more.
pub(crate) fn pool<W: Wake>(rt: &(impl Abort + AllocGlobal), size: u64) -> Pool<u64, W> {
    let mut resources = Vec::new(rt.alloc());
    for slot in 0..size {
        resources.push(slot.wrapping_add(10)).expect(rt, "memory");
    }
    match Pool::new(rt.alloc(), resources) {
        Ok(pool) => pool,
        Err(_) => panic!(rt; "no memory"),
    }
}
