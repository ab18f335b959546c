//! What `Debug` shows of the types here: the name alone. What stands behind a lock is not shown, since to look takes the
//! handle.
use crate::barrier::Barrier;
use crate::broadcast::overflow;
use crate::latch::Latch;
use crate::mpsc::{BoundedReceiver, BoundedSender, UnboundedReceiver, UnboundedSender};
use crate::shutdown::{ShutdownRecv, ShutdownSend, ShutdownWatch};
use crate::waitgroup::WaitGroup;
use std::fmt;

impl<W> fmt::Debug for Barrier<W> {
    fn fmt<O: fmt::Write>(&self, f: &mut fmt::Formatter<O>) -> fmt::Result {
        f.write_str("Barrier { .. }")
    }
}

impl<W> fmt::Debug for Latch<W> {
    fn fmt<O: fmt::Write>(&self, f: &mut fmt::Formatter<O>) -> fmt::Result {
        f.write_str("Latch { .. }")
    }
}

impl<W> fmt::Debug for WaitGroup<W> {
    fn fmt<O: fmt::Write>(&self, f: &mut fmt::Formatter<O>) -> fmt::Result {
        f.write_str("WaitGroup { .. }")
    }
}

impl<W> fmt::Debug for ShutdownSend<W> {
    fn fmt<O: fmt::Write>(&self, f: &mut fmt::Formatter<O>) -> fmt::Result {
        f.write_str("ShutdownSend { .. }")
    }
}

impl<W> fmt::Debug for ShutdownRecv<W> {
    fn fmt<O: fmt::Write>(&self, f: &mut fmt::Formatter<O>) -> fmt::Result {
        f.write_str("ShutdownRecv { .. }")
    }
}

impl<W> fmt::Debug for ShutdownWatch<W> {
    fn fmt<O: fmt::Write>(&self, f: &mut fmt::Formatter<O>) -> fmt::Result {
        f.write_str("ShutdownWatch { .. }")
    }
}

impl<T, W> fmt::Debug for BoundedSender<T, W> {
    fn fmt<O: fmt::Write>(&self, f: &mut fmt::Formatter<O>) -> fmt::Result {
        f.write_str("BoundedSender { .. }")
    }
}

impl<T, W> fmt::Debug for BoundedReceiver<T, W> {
    fn fmt<O: fmt::Write>(&self, f: &mut fmt::Formatter<O>) -> fmt::Result {
        f.write_str("BoundedReceiver { .. }")
    }
}

impl<T, W> fmt::Debug for UnboundedSender<T, W> {
    fn fmt<O: fmt::Write>(&self, f: &mut fmt::Formatter<O>) -> fmt::Result {
        f.write_str("UnboundedSender { .. }")
    }
}

impl<T, W> fmt::Debug for UnboundedReceiver<T, W> {
    fn fmt<O: fmt::Write>(&self, f: &mut fmt::Formatter<O>) -> fmt::Result {
        f.write_str("UnboundedReceiver { .. }")
    }
}

impl<T, W> fmt::Debug for overflow::Sender<T, W> {
    fn fmt<O: fmt::Write>(&self, f: &mut fmt::Formatter<O>) -> fmt::Result {
        f.write_str("Sender { .. }")
    }
}

impl<T, W> fmt::Debug for overflow::Receiver<T, W> {
    fn fmt<O: fmt::Write>(&self, f: &mut fmt::Formatter<O>) -> fmt::Result {
        f.write_str("Receiver { .. }")
    }
}
