ghost use Rattle.std.specs.Prelude.{◌≡◌, ◌≢◌, ◌≤◌, IfSome, is_some, Some, true};
ghost use Rattle.mea_family.specs.Causes.{borrowed_by};
ghost use Rattle.mea_once_model.specs.Cells.{no_cells, is_cell, is_future, is_unsettled, futures_of, alone_of, registered};
ghost use Rattle.mea_once_model.specs.Actions.{cause_in, Make, Begin, Poll, Settle, End, TellFull, Tell, Use, TakeOut, Drop, in_the_way};
ghost use Rattle.mea_once_model.specs.Valid.{HasCells};
ghost use Rattle.mea_once.specs.Parts.{IsNewCell, fits, FitsSettled};
ghost use Rattle.mea_once.specs.Actions.{turn_action, whole_action, FitsTurn};
ghost use Rattle.mea_once.specs.Acts.{CellActs, CellActsQuietly};
ghost use Rattle.mea_once.specs.Lends.{StandsFor};

use crate::actions::{TurnAction, WholeAction};
use crate::cell_entry::CellEntry;
use crate::errands::{can_settle, content, yes_if_full};
use crate::future_entry::FutureEntry;
use crate::polled_core::PolledCore;
use crate::turn_core::{TurnCore, WholeCore};
use mea_base::Ready;
use mea_by_name::ByName;
use mea_family::{Reply, Stop, Word, borrowed_if, unknown_unless};
use mea_meet_core::LatchWait;
use mea_once_core::CellStage;
use mea_once_model::{Errand, Initialiser, WholeUse};
use std::alloc::Global;
use std::marker::Model;

/// The cells of one kind with their futures, each by the number of the event that made it. Each call costs a few look-ups
/// by name and the wakers that it makes ready.
#[derive(Drop)]
pub struct CellPart<C: TurnCore> {
    cells: ByName<CellEntry<C>>,
    futures: ByName<FutureEntry>,
    // The least number that the next event may have, which may be 2^64.
    next: u128,
    alloc: Global,
}

impl<C: TurnCore> Model for CellPart<C> {
    ghost use Rattle.mea_family.specs.Play.{Part, part_code};
    ghost use Rattle.mea_once_model.specs.Cells.{Cells, cells_code};

    ghost Value = { Part Cells };

    ghost coded = { part_code cells_code };

    ghost use Rattle.mea_once.specs.PartForm.{ArePartKept};
    ghost use Rattle.mea_once.specs.Parts.{cells_seen, cell_form};

    ghost view = { λ a. record { hall = cells_seen a.cells a.futures; next = a.next } };

    ghost invariant = { λ a. ArePartKept (cell_form C.is_once) a.cells a.futures a.next };
}

impl<C: TurnCore> CellPart<C> {
    /// No cell. It takes no memory.
    pub fn new(alloc: Global) -> Self
        ensures { result ≡ record { hall = no_cells; next = 0 } }
    {
        CellPart {
            cells: ByName::new(alloc),
            futures: ByName::new(alloc),
            next: 0,
            alloc,
        }
    }

    /// The core of a cell, where it is there. It takes no memory.
    pub fn core(&self, o: u64) -> Option<&C>
        ensures there { is_some result ≡ is_cell self.now.hall o }
        ensures stands { IfSome result (λ core. StandsFor self.now.hall o (C.seen_as core.now)) }
    {
        let entry = self.cells.get(o)?;
        Some(entry.core())
    }

    /// What holds of the cells and their futures. It does nothing.
    pub fn is_valid(&self)
        ensures { HasCells self.now.hall self.now.next }
    {
        let _next = self.next;
    }

    /// Why an action is refused; None where it is not. It takes no memory.
    pub fn cause(&self, action: TurnAction) -> Option<Stop>
        ensures { result ≡ cause_in self.now.hall (turn_action action) }
    {
        match action {
            TurnAction::Make => None,
            TurnAction::Begin(o, errand) => self.cause_of_begin(o, errand),
            TurnAction::Poll(f, _) => unknown_unless(self.is_future(f)),
            TurnAction::Settle(f, _) => unknown_unless(self.is_unsettled(f)),
            TurnAction::End(f) => unknown_unless(self.is_future(f)),
            TurnAction::TellFull(o) | TurnAction::Tell(o) => self.cause_of_use(o),
            TurnAction::Drop(o) => self.cause_of_whole(o),
        }
    }

    fn is_future(&self, f: u64) -> bool
        ensures { result ≡ is_future self.now.hall f }
    {
        self.futures.has(f)
    }

    // Whether it has an initialiser that is not settled.
    fn is_unsettled(&self, f: u64) -> bool
        ensures { result ≡ is_unsettled self.now.hall f }
    {
        match self.futures.get(f) {
            Some(future) => can_settle(future.errand),
            None => false,
        }
    }

    // Why a new future that does this is refused: its cell is unknown, or a future is in its way.
    fn cause_of_begin(&self, o: u64, errand: Errand) -> Option<Stop>
        ensures { result ≡ borrowed_by (is_cell self.now.hall o) (in_the_way self.now.hall o errand) }
    {
        match self.cells.get(o) {
            Some(entry) => borrowed_if(entry.is_closed_to(errand)),
            None => Some(Stop::Unknown),
        }
    }

    // Why a use of the cell is refused: it is unknown, or a future uses it alone.
    fn cause_of_use(&self, o: u64) -> Option<Stop>
        ensures { result ≡ borrowed_by (is_cell self.now.hall o) (alone_of self.now.hall o) }
    {
        match self.cells.get(o) {
            Some(entry) => borrowed_if(entry.is_alone()),
            None => Some(Stop::Unknown),
        }
    }

    // Why a use of the whole cell is refused: it is unknown, or it has a future.
    fn cause_of_whole(&self, o: u64) -> Option<Stop>
        ensures is { result ≡ borrowed_by (is_cell self.now.hall o) (futures_of self.now.hall o) }
        ensures tells { result ≢ Some Stop.NoMemory }
    {
        match self.cells.get(o) {
            Some(entry) => borrowed_if(entry.has_futures()),
            None => Some(Stop::Unknown),
        }
    }

    // Makes a cell of a new core. On an error nothing has changed.
    fn make(&mut self, number: u64, core: C) -> Result<Reply, Stop>
        requires next { self.old.next ≤ number }
        requires new { IsNewCell (C.seen_as core) (C.seen_as core).value }
        ensures { CellActsQuietly self.old number (Make (C.seen_as core).value) result self.new }
    {
        let Ok(()) = self.cells.insert(number, CellEntry::new(core)) else {
            return Err(Stop::NoMemory);
        };
        self.next = number as u128 + 1;
        Ok(Reply(Word::Made))
    }

    // Makes a future that does this. On an error nothing has changed.
    fn begin(&mut self, number: u64, o: u64, errand: Errand) -> Result<Reply, Stop>
        requires next { self.old.next ≤ number }
        requires fits { fits C.is_once errand ≡ true }
        ensures { CellActsQuietly self.old number (Begin o errand) result self.new }
    {
        let Some(entry) = self.cells.get_mut(o) else {
            return Err(Stop::Unknown);
        };
        if entry.is_closed_to(errand) {
            return Err(Stop::Borrowed);
        }
        let future = FutureEntry {
            cell: o,
            errand,
            stage: CellStage::New,
            wait: LatchWait::new(),
        };
        let Ok(()) = self.futures.insert(number, future) else {
            return Err(Stop::NoMemory);
        };
        entry.begin(errand);
        self.next = number as u128 + 1;
        Ok(Reply(Word::Made))
    }

    // Settles the initialiser of a future. It takes no memory.
    fn settle(
        &mut self,
        number: u64,
        f: u64,
        outcome: Initialiser,
        ready: &mut Ready<u64>,
    ) -> Result<Reply, Stop>
        requires next { self.old.next ≤ number }
        requires fits { FitsSettled C.is_once outcome }
        requires room { registered self.old.hall ≤ ready.old.registered }
        ensures { CellActs self.old number (Settle f outcome) result self.new ready.old ready.new }
    {
        let Some(future) = self.futures.get_mut(f) else {
            return Err(Stop::Unknown);
        };
        if !can_settle(future.errand) {
            return Err(Stop::Unknown);
        }
        let entry = self.cells.at_mut(future.cell);
        entry.settle(f, future, outcome, ready);
        self.next = number as u128 + 1;
        Ok(Reply(Word::Done))
    }

    // Ends a future. It takes no memory.
    fn end(&mut self, number: u64, f: u64, ready: &mut Ready<u64>) -> Result<Reply, Stop>
        requires next { self.old.next ≤ number }
        requires room { registered self.old.hall ≤ ready.old.registered }
        ensures { CellActs self.old number (End f) result self.new ready.old ready.new }
    {
        let Some(future) = self.futures.take(f) else {
            return Err(Stop::Unknown);
        };
        let entry = self.cells.at_mut(future.cell);
        entry.end(f, future, ready);
        self.next = number as u128 + 1;
        Ok(Reply(Word::Done))
    }

    // Tells whether a cell is full. It takes no memory.
    fn tell_full(&mut self, number: u64, o: u64) -> Result<Reply, Stop>
        requires { self.old.next ≤ number }
        ensures { CellActsQuietly self.old number (TellFull o) result self.new }
    {
        let Some(entry) = self.cells.get(o) else {
            return Err(Stop::Unknown);
        };
        if entry.is_alone() {
            return Err(Stop::Borrowed);
        }
        let value = entry.core().value();
        self.next = number as u128 + 1;
        Ok(yes_if_full(value))
    }

    // Tells the value of a cell. It takes no memory.
    fn tell(&mut self, number: u64, o: u64) -> Result<Reply, Stop>
        requires { self.old.next ≤ number }
        ensures { CellActsQuietly self.old number (Tell o) result self.new }
    {
        let Some(entry) = self.cells.get(o) else {
            return Err(Stop::Unknown);
        };
        if entry.is_alone() {
            return Err(Stop::Borrowed);
        }
        let value = entry.core().value();
        self.next = number as u128 + 1;
        Ok(content(value))
    }

    // Ends a cell that has no future; who waits until it is full is forgotten. It takes no memory.
    fn end_cell(&mut self, number: u64, o: u64, ready: &mut Ready<u64>) -> Result<Reply, Stop>
        requires next { self.old.next ≤ number }
        requires room { registered self.old.hall ≤ ready.old.registered }
        ensures { CellActs self.old number (Drop o) result self.new ready.old ready.new }
    {
        if let Some(stop) = self.cause_of_whole(o) {
            return Err(stop);
        }
        let entry = self.cells.remove(o);
        let kept = entry.keeps(ready);
        ready.unregister(kept);
        self.next = number as u128 + 1;
        Ok(Reply(Word::Done))
    }
}

impl<C: PolledCore> CellPart<C> {
    /// Does an action, or finds why it is refused. On an error nothing has changed. Memory is taken for what is made and by a
    /// poll.
    pub fn act(
        &mut self,
        number: u64,
        action: TurnAction,
        ready: &mut Ready<u64>,
    ) -> Result<Reply, Stop>
        requires next { self.old.next ≤ number }
        requires fits { FitsTurn C.TurnCore.is_once action }
        requires room { registered self.old.hall ≤ ready.old.registered }
        ensures { CellActs self.old number (turn_action action) result self.new ready.old ready.new }
    {
        match action {
            TurnAction::Make => self.make(number, C::empty(self.alloc)),
            TurnAction::Begin(o, errand) => self.begin(number, o, errand),
            TurnAction::Poll(f, waker) => self.poll(number, f, waker, ready),
            TurnAction::Settle(f, outcome) => self.settle(number, f, outcome, ready),
            TurnAction::End(f) => self.end(number, f, ready),
            TurnAction::TellFull(o) => self.tell_full(number, o),
            TurnAction::Tell(o) => self.tell(number, o),
            TurnAction::Drop(o) => self.end_cell(number, o, ready),
        }
    }

    // Polls a future. On an error nothing has changed.
    fn poll(
        &mut self,
        number: u64,
        f: u64,
        waker: u64,
        ready: &mut Ready<u64>,
    ) -> Result<Reply, Stop>
        requires next { self.old.next ≤ number }
        requires room { registered self.old.hall ≤ ready.old.registered }
        ensures { CellActs self.old number (Poll f waker) result self.new ready.old ready.new }
    {
        let Some(future) = self.futures.get_mut(f) else {
            return Err(Stop::Unknown);
        };
        let entry = self.cells.at_mut(future.cell);
        let Ok(told) = C::poll_at(entry, f, future, waker, ready) else {
            return Err(Stop::NoMemory);
        };
        self.futures.remove_if(f, told.over);
        self.next = number as u128 + 1;
        Ok(told.answer)
    }
}

impl<C: WholeCore> CellPart<C> {
    /// Why an action is refused; None where it is not. It takes no memory.
    pub fn cause_whole(&self, action: WholeAction) -> Option<Stop>
        ensures { result ≡ cause_in self.now.hall (whole_action action) }
    {
        match action {
            WholeAction::MakeFull(_) => None,
            WholeAction::Use(o, _) | WholeAction::TakeOut(o) => self.cause_of_whole(o),
        }
    }

    /// Does an action, or finds why it is refused. On an error nothing has changed. Memory is taken for what is made.
    pub fn act_whole(
        &mut self,
        number: u64,
        action: WholeAction,
        ready: &mut Ready<u64>,
    ) -> Result<Reply, Stop>
        requires next { self.old.next ≤ number }
        requires room { registered self.old.hall ≤ ready.old.registered }
        ensures { CellActs self.old number (whole_action action) result self.new ready.old ready.new }
    {
        match action {
            WholeAction::MakeFull(value) => self.make(number, C::full(self.alloc, value)),
            WholeAction::Use(o, what) => self.use_whole(number, o, what),
            WholeAction::TakeOut(o) => self.take_out(number, o, ready),
        }
    }

    // Uses the value of a cell that has no future. It takes no memory.
    fn use_whole(&mut self, number: u64, o: u64, what: WholeUse) -> Result<Reply, Stop>
        requires { self.old.next ≤ number }
        ensures { CellActsQuietly self.old number (Use o what) result self.new }
    {
        let Some(entry) = self.cells.get_mut(o) else {
            return Err(Stop::Unknown);
        };
        if entry.has_futures() {
            return Err(Stop::Borrowed);
        }
        let answer = entry.use_whole(what);
        self.next = number as u128 + 1;
        Ok(answer)
    }

    // Ends a cell that has no future, with its value. It takes no memory.
    fn take_out(&mut self, number: u64, o: u64, ready: &mut Ready<u64>) -> Result<Reply, Stop>
        requires next { self.old.next ≤ number }
        requires room { registered self.old.hall ≤ ready.old.registered }
        ensures { CellActs self.old number (TakeOut o) result self.new ready.old ready.new }
    {
        if let Some(stop) = self.cause_of_whole(o) {
            return Err(stop);
        }
        let entry = self.cells.remove(o);
        let kept = entry.keeps(ready);
        ready.unregister(kept);
        let value = entry.into_value();
        self.next = number as u128 + 1;
        Ok(content(value))
    }
}
