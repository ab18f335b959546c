use mea_base::Wake;
use std::alloc::{AllocError, Global};
use std::sync::Arc;
use std::sync::atomic::AtomicU64;
use std::sync::atomic::Ordering::SeqCst;

/// A waker that counts how often its like were woken.
#[derive(Drop)]
pub struct Bell(pub Count);

/// How often the wakers of a test were woken.
pub type Count = Arc<AtomicU64>;

impl Wake for Bell {
    fn wake(self) {
        self.0.fetch_add(1, SeqCst);
    }
}

/// A count of no wakes. It takes memory for the count that the wakers share.
pub fn count(alloc: Global) -> Result<Count, AllocError> {
    Ok(Arc::new(alloc, AtomicU64::new(0))?)
}

/// How often the wakers of a count were woken. It takes no memory.
pub fn rung(count: &Count) -> u64 {
    count.load(SeqCst)
}
