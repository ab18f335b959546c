use std::sync::atomic::{AtomicU64, Ordering};
use std::thread;

/// Where two threads wait for each other, some times in turn.
#[derive(Drop)]
pub struct Meeting {
    arrivals: [AtomicU64; 2],
    late: AtomicU64,
}

impl Meeting {
    /// Nobody has come yet.
    pub fn new() -> Meeting {
        Meeting {
            arrivals: [AtomicU64::new(0), AtomicU64::new(0)],
            late: AtomicU64::new(0),
        }
    }

    /// Waits until the other has come as often as this one.
    pub fn meet(&self, is_first: bool) {
        let (mine, other) = if is_first { (0, 1) } else { (1, 0) };
        let times = self.arrivals[mine].fetch_add(1, Ordering::SeqCst);
        for _ in 0..10_000_000u32 {
            if self.arrivals[other].load(Ordering::SeqCst) > times {
                return;
            }
            thread::yield_now();
        }
        self.late.fetch_add(1, Ordering::SeqCst);
    }

    /// How often one waited in vain.
    pub fn late(&self) -> u64 {
        self.late.load(Ordering::SeqCst)
    }
}
