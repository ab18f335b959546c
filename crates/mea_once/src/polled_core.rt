ghost use Rattle.std.specs.Prelude.{◌≤◌};
ghost use Rattle.mea_once.specs.Entries.{keeps};
ghost use Rattle.mea_once.specs.Parts.{Stands, PollsCell};

use crate::cell_entry::CellEntry;
use crate::errands::{is_alone, is_wait};
use crate::future_entry::FutureEntry;
use crate::poll_reply::PollReply;
use crate::turn_core::TurnCore;
use mea_base::{NoMemory, Ready};
use mea_by_name::NamedWaker;
use mea_once_core::{CellCore, OnceCore};

/// A core with what a poll does at its cell: of a caller, or else of a wait at a call that runs once, and of a future that uses
/// a cell alone.
pub trait PolledCore: TurnCore {
    /// Polls a future, which is named `f`. On an error nothing has changed.
    fn poll_at(
        entry: &mut CellEntry<Self>,
        f: u64,
        future: &mut FutureEntry,
        waker: u64,
        ready: &mut Ready<u64>,
    ) -> Result<PollReply, NoMemory>
        requires stands { Stands Self.is_once entry.old f future.old }
        requires room { keeps entry.old ≤ ready.old.registered }
        ensures { PollsCell Self.is_once entry.old f future.old waker ready.old result entry.new future.new ready.new };
}

impl PolledCore for OnceCore<NamedWaker> {
    fn poll_at(
        entry: &mut CellEntry<Self>,
        f: u64,
        future: &mut FutureEntry,
        waker: u64,
        ready: &mut Ready<u64>,
    ) -> Result<PollReply, NoMemory> {
        if is_wait(future.errand) {
            entry.poll_wait(f, future, waker, ready)
        } else {
            entry.poll_call(f, future, waker, ready)
        }
    }
}

impl PolledCore for CellCore<u64, NamedWaker> {
    fn poll_at(
        entry: &mut CellEntry<Self>,
        f: u64,
        future: &mut FutureEntry,
        waker: u64,
        ready: &mut Ready<u64>,
    ) -> Result<PollReply, NoMemory> {
        if is_alone(future.errand) {
            entry.poll_alone(f, future, waker, ready)
        } else {
            entry.poll_call(f, future, waker, ready)
        }
    }
}
