//! A shutdown that threads and tasks share: `mea::shutdown`.
mod waits;

use mea_base::{NoMemory, Wake};
use mea_meet_seats::CountSeats;
use mea_wait::{End, HandleFault, hand_out};
use std::alloc::Global;
use std::sync;
use std::sync::{Arc, Mutex};
pub use waits::{OwnedSignal, Signal, SignalWait, Wait};

/// Who asks for the shutdown. It ports `mea::shutdown::ShutdownSend`.
pub struct ShutdownSend<W> {
    shared: Arc<Shared<W>>,
}

// Written out: a derived one is proved anew in each crate that hands a value of this type to a generic function.
impl<W: Drop> Drop for ShutdownSend<W> {
    fn drop(self) {
        let ShutdownSend { shared: _ } = self;
    }
}

/// Who shuts down when asked, and is waited for. It must be ended. It ports `mea::shutdown::ShutdownRecv`.
pub struct ShutdownRecv<W> {
    shared: Arc<Shared<W>>,
}

/// Who hears of the shutdown, and is not waited for. It ports `mea::shutdown::ShutdownWatch`.
pub struct ShutdownWatch<W> {
    shared: Arc<Shared<W>>,
}

// Written out: a derived one is proved anew in each crate that hands a value of this type to a generic function.
impl<W: Drop> Drop for ShutdownWatch<W> {
    fn drop(self) {
        let ShutdownWatch { shared: _ } = self;
    }
}

/// What the ends of a shutdown share: a latch that the signal opens, and a group of the receivers, each with those
/// who wait for it.
pub struct Shared<W> {
    signal: Mutex<CountSeats<W>>,
    receivers: Mutex<CountSeats<W>>,
}

// Written out: a derived one is proved anew in each crate that hands a value of this type to a generic function.
impl<W: Drop> Drop for Shared<W> {
    fn drop(self) {
        let Shared {
            signal: _,
            receivers: _,
        } = self;
    }
}

/// A shutdown: its sender and its first receiver.
pub fn new_pair<W: Wake>(alloc: Global) -> Result<(ShutdownSend<W>, ShutdownRecv<W>), NoMemory> {
    let signal = Mutex::new(CountSeats::new(alloc, 1));
    let receivers = Mutex::new(CountSeats::new(alloc, 1));
    let shared = Arc::new(alloc, Shared { signal, receivers })?;
    let other = Arc::try_clone(&shared)?;
    Ok((ShutdownSend { shared }, ShutdownRecv { shared: other }))
}

impl<W: Wake> ShutdownSend<W> {
    /// Asks for the shutdown, and wakes all who wait for that. It takes no memory.
    pub fn shutdown<R: sync::Wait>(&self, rt: &R) {
        let made = self.shared.signal.lock(rt).decrement(1);
        hand_out(made, || self.shared.signal.lock(rt).next_wake());
    }

    /// Waits until all receivers have ended, whether or not the shutdown was asked for. It takes no memory.
    pub fn await_shutdown(self) -> Wait<W> {
        let ShutdownSend { shared } = self;
        Wait::of(shared)
    }

    /// A further sender. A further share may be refused.
    pub fn clone_handle(&self) -> Result<Self, NoMemory> {
        Ok(ShutdownSend {
            shared: Arc::try_clone(&self.shared)?,
        })
    }
}

impl<W: Wake> ShutdownRecv<W> {
    /// A watch, which is not waited for. A further share may be refused.
    pub fn watch(&self) -> Result<ShutdownWatch<W>, NoMemory> {
        Ok(ShutdownWatch {
            shared: Arc::try_clone(&self.shared)?,
        })
    }

    /// A further receiver. It is refused where there are 4294967295, and where no further share can be had; then nothing
    /// has changed.
    pub fn clone_handle<R: sync::Wait>(&self, rt: &R) -> Result<Self, HandleFault> {
        let shared = Arc::try_clone(&self.shared)?;
        let added = shared.receivers.lock(rt).increment();
        added?;
        Ok(ShutdownRecv { shared })
    }

    /// Whether the shutdown was asked for. It takes no memory.
    pub fn is_shutdown_now<R: sync::Wait>(&self, rt: &R) -> bool {
        self.shared.signal.lock(rt).try_wait().is_ok()
    }

    /// Waits until the shutdown is asked for. It takes no memory.
    pub fn is_shutdown(&self) -> Signal<'_, W> {
        SignalWait::of(&*self.shared)
    }

    /// `is_shutdown`, for a wait that owns a share. A further share may be refused.
    pub fn is_shutdown_owned(&self) -> Result<OwnedSignal<W>, NoMemory> {
        Ok(SignalWait::of(Arc::try_clone(&self.shared)?))
    }
}

impl<W: Wake> ShutdownWatch<W> {
    /// A further watch. A further share may be refused.
    pub fn clone_handle(&self) -> Result<Self, NoMemory> {
        Ok(ShutdownWatch {
            shared: Arc::try_clone(&self.shared)?,
        })
    }

    /// Whether the shutdown was asked for. It takes no memory.
    pub fn is_shutdown_now<R: sync::Wait>(&self, rt: &R) -> bool {
        self.shared.signal.lock(rt).try_wait().is_ok()
    }

    /// Waits until the shutdown is asked for. It takes no memory.
    pub fn is_shutdown(&self) -> Signal<'_, W> {
        SignalWait::of(&*self.shared)
    }

    /// `is_shutdown`, for a wait that owns a share. A further share may be refused.
    pub fn is_shutdown_owned(&self) -> Result<OwnedSignal<W>, NoMemory> {
        Ok(SignalWait::of(Arc::try_clone(&self.shared)?))
    }
}

impl<W: Wake> End for ShutdownSend<W> {
    fn end<R: sync::Wait>(self, _rt: &R) {
        drop(self);
    }
}

impl<W: Wake> End for ShutdownWatch<W> {
    fn end<R: sync::Wait>(self, _rt: &R) {
        drop(self);
    }
}

impl<W: Wake> End for ShutdownRecv<W> {
    fn end<R: sync::Wait>(self, rt: &R) {
        let ShutdownRecv { shared } = self;
        let made = shared.receivers.lock(rt).decrement(1);
        hand_out(made, || shared.receivers.lock(rt).next_wake());
    }
}
