ghost use Rattle.std.specs.Prelude.{◌≡◌, ◌⊎◌, true, false, None, IsSomeAnd};
ghost use Rattle.futures.specs.Task.{Covers, Keeps, Wakes};

use futures::spin::lock;
use futures::task::{Context, Poll, Source, Waker};
use mea_base::Wake;
use std::alloc::{AllocError, Global};
use std::sync::atomic::AtomicBool;
use std::sync::atomic::Ordering::SeqCst;
use std::sync::{Arc, Mutex};

// What a wake finds: whether one came since the last poll began, and the waker of the task that waits.
#[derive(Drop)]
struct Ring {
    is_rung: bool,
    waker: Option<Waker>,
    ghost woken: { is_rung ≡ true → waker ≡ None },
}

impl Ring {
    // One that nobody rang, and with no task.
    fn new() -> Self
        ensures { (result.is_rung ≡ false) × (result.waker ≡ None) }
    {
        Ring {
            is_rung: false,
            waker: None,
        }
    }

    // A poll begins: only a wake from now on counts.
    fn calm(&mut self)
        ensures calm { self.new.is_rung ≡ false }
        ensures same { self.new.waker ≡ self.old.waker }
    {
        self.is_rung = false;
    }

    // A wake: it hands the task's waker out, whose drop wakes the task.
    fn ring(&mut self) -> Option<Waker>
        ensures rung { (self.new.is_rung ≡ true) × (self.new.waker ≡ None) }
        ensures waker { result ≡ self.old.waker }
    {
        let waker = self.waker.take();
        self.is_rung = true;
        waker
    }

    // A poll was pending: the task leaves its waker here, or asks for another poll where a wake came meanwhile.
    fn rest<T>(&mut self, cx: &mut Context<'_>, source: &Source) -> Poll<T>
        ensures pending { result ≡ Poll.Pending }
        ensures registered { Covers cx.new (λ s. s ≡ source.now.id) }
        ensures kept { Keeps cx.old cx.new }
        ensures rung { self.old.is_rung ≡ true → cx.new.is_woken ≡ true }
        ensures left { self.old.is_rung ≡ false → (cx.new.lacks_waker ≡ true) ⊎ IsSomeAnd self.new.waker (λ waker. Wakes waker cx.old) }
    {
        if self.is_rung {
            cx.yield_now()
        } else {
            cx.register(source, &mut self.waker)
        }
    }
}

// What all shares of a bell ring.
#[derive(Drop)]
struct Tower {
    ring: Mutex<Ring>,
    // What the ring says of itself, to be read without its lock, under which it is written. A poll that begins while a wake is
    // under way may find it false: then the task polls once more than it has to. No wake is lost by it, since where a task
    // comes to rest the ring itself is asked.
    is_rung: AtomicBool,
}

/// The waker that the types of `mea` keep for a task of an executor: it rings for one wait, and a ring wakes the task that
/// polled that wait last.
///
/// The waker of the kit's executors cannot stand in its place: it wakes where it is dropped, so a second poll that replaces
/// it would ask for a third. To drop a `Bell` wakes nobody. To wake by it takes no handle, since its lock is held for a few
/// steps alone, and none of them waits.
#[derive(Drop)]
pub struct Bell {
    tower: Arc<Tower>,
}

impl Wake for Bell {
    fn wake(self) {
        // The task's waker is dropped below, with no lock held.
        let waker = match lock(&self.tower.ring) {
            Some(mut ring) => {
                let waker = ring.ring();
                self.tower.is_rung.store(true, SeqCst);
                waker
            }
            None => None,
        };
        drop(waker);
    }
}

impl Bell {
    // The bell of one wait.
    pub(crate) fn new(alloc: Global) -> Result<Self, AllocError> {
        let tower = Arc::new(
            alloc,
            Tower {
                ring: Mutex::new(Ring::new()),
                is_rung: AtomicBool::new(false),
            },
        )?;
        Ok(Bell { tower })
    }

    // The same bell once more, for a core to keep.
    pub(crate) fn again(&self) -> Option<Self> {
        match Arc::try_clone(&self.tower) {
            Ok(tower) => Some(Bell { tower }),
            Err(_) => None,
        }
    }

    // A poll begins. It takes the lock only where there is a wake to be forgotten, and tells whether there was one: then the
    // bell has no task's waker.
    pub(crate) fn calm(&self) -> bool {
        if !self.is_rung() {
            return false;
        }
        match lock(&self.tower.ring) {
            Some(mut ring) => {
                ring.calm();
                self.tower.is_rung.store(false, SeqCst);
                true
            }
            None => false,
        }
    }

    // Whether a wake came since the last poll began.
    pub(crate) fn is_rung(&self) -> bool {
        self.tower.is_rung.load(SeqCst)
    }

    // A poll was pending.
    pub(crate) fn rest<T>(&self, cx: &mut Context<'_>, source: &Source) -> Poll<T>
        ensures pending { result ≡ Poll.Pending }
        ensures registered { Covers cx.new (λ s. s ≡ source.now.id) }
        ensures kept { Keeps cx.old cx.new }
    {
        match lock(&self.tower.ring) {
            Some(mut ring) => ring.rest(cx, source),
            None => cx.yield_now(),
        }
    }
}
