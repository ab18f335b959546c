ghost use Rattle.std.specs.Prelude.{◌≡◌, ◌≢◌, ◌≤◌, IfSome, is_some, Some};
ghost use Rattle.mea_family.specs.Causes.{borrowed_by};
ghost use Rattle.mea_once_model.specs.Tables.{no_tables, is_table, is_future, is_unsettled, futures_of, registered};
ghost use Rattle.mea_once_model.specs.KeyActions.{key_cause, MakeTable, BeginKey, PollKey, SettleKey, EndKey, TellKey, DiscardKey, RemoveKey, DropTable};
ghost use Rattle.mea_once_model.specs.Valid.{HasTables};
ghost use Rattle.mea_once.specs.KeyParts.{IsNewKeyed};
ghost use Rattle.mea_once.specs.Actions.{table_action, value_action};
ghost use Rattle.mea_once.specs.Acts.{KeyActs, KeyActsQuietly};
ghost use Rattle.mea_once.specs.Lends.{StandsForTable};

use crate::actions::{TableAction, ValueAction};
use crate::errands::content;
use crate::key_future::KeyFuture;
use crate::scripted::Scripted;
use crate::table_core::{TableCore, ValueCore};
use crate::table_entry::TableEntry;
use mea_base::Ready;
use mea_by_name::ByName;
use mea_family::{Reply, Stop, Word, borrowed_if, unknown_unless};
use mea_once_core::KeyCall;
use mea_once_model::Initialiser;
use std::alloc::Global;
use std::marker::Model;

/// Maps, or groups, with their futures, each by the number of the event that made it. Each call costs a few look-ups by name
/// and by key, and what its core costs.
#[derive(Drop)]
pub struct KeyPart<C: TableCore> {
    tables: ByName<TableEntry<C>>,
    futures: ByName<KeyFuture>,
    // The least number that the next event may have, which may be 2^64.
    next: u128,
    alloc: Global,
}

impl<C: TableCore> Model for KeyPart<C> {
    ghost use Rattle.mea_family.specs.Play.{Part, part_code};
    ghost use Rattle.mea_once_model.specs.Tables.{Tables, tables_code};

    ghost Value = { Part Tables };

    ghost coded = { part_code tables_code };

    ghost use Rattle.mea_once.specs.PartForm.{ArePartKept};
    ghost use Rattle.mea_once.specs.KeyParts.{tables_seen, table_form};

    ghost view = { λ a. record { hall = tables_seen a.tables a.futures; next = a.next } };

    ghost invariant = { λ a. ArePartKept (table_form C.is_once) a.tables a.futures a.next };
}

impl<C: TableCore> KeyPart<C> {
    /// Nothing. It takes no memory.
    pub fn new(alloc: Global) -> Self
        ensures { result ≡ record { hall = no_tables; next = 0 } }
    {
        KeyPart {
            tables: ByName::new(alloc),
            futures: ByName::new(alloc),
            next: 0,
            alloc,
        }
    }

    /// The core of a map or a group, where it is there. It takes no memory.
    pub fn core(&self, o: u64) -> Option<&C>
        ensures there { is_some result ≡ is_table self.now.hall o }
        ensures stands { IfSome result (λ core. StandsForTable self.now.hall o (C.seen_as core.now)) }
    {
        let entry = self.tables.get(o)?;
        Some(entry.core())
    }

    /// What holds of the maps or groups and their futures. It does nothing.
    pub fn is_valid(&self)
        ensures { HasTables self.now.hall self.now.next }
    {
        let _next = self.next;
    }

    /// Why an action is refused; None where it is not. It takes no memory.
    pub fn cause(&self, action: TableAction) -> Option<Stop>
        ensures { result ≡ key_cause self.now.hall (table_action action) }
    {
        match action {
            TableAction::Make => None,
            TableAction::Begin(o, _) | TableAction::Discard(o, _) => {
                unknown_unless(self.is_table(o))
            }
            TableAction::Poll(f, _) | TableAction::End(f) => unknown_unless(self.is_future(f)),
            TableAction::Settle(f, _) => unknown_unless(self.is_unsettled(f)),
            TableAction::Drop(o) => self.cause_of_drop(o),
        }
    }

    /// Does an action, or finds why it is refused. On an error nothing has changed. Memory is taken for what is made and by a
    /// poll.
    pub fn act(
        &mut self,
        number: u64,
        action: TableAction,
        ready: &mut Ready<u64>,
    ) -> Result<Reply, Stop>
        requires next { self.old.next ≤ number }
        requires room { registered self.old.hall ≤ ready.old.registered }
        ensures { KeyActs C.is_once self.old number (table_action action) result self.new ready.old ready.new }
    {
        match action {
            TableAction::Make => self.make(number, C::empty(self.alloc)),
            TableAction::Begin(o, key) => self.begin(number, o, key),
            TableAction::Poll(f, waker) => self.poll(number, f, waker, ready),
            TableAction::Settle(f, outcome) => self.settle(number, f, outcome, ready),
            TableAction::End(f) => self.end(number, f, ready),
            TableAction::Discard(o, key) => self.discard(number, o, key),
            TableAction::Drop(o) => self.end_table(number, o),
        }
    }

    fn is_table(&self, o: u64) -> bool
        ensures { result ≡ is_table self.now.hall o }
    {
        self.tables.has(o)
    }

    fn is_future(&self, f: u64) -> bool
        ensures { result ≡ is_future self.now.hall f }
    {
        self.futures.has(f)
    }

    // Whether its initialiser is not settled.
    fn is_unsettled(&self, f: u64) -> bool
        ensures { result ≡ is_unsettled self.now.hall f }
    {
        match self.futures.get(f) {
            Some(future) => future.call.call.init.is_unsettled(),
            None => false,
        }
    }

    // Why it may not be dropped: it is unknown, or it has a future.
    fn cause_of_drop(&self, o: u64) -> Option<Stop>
        ensures is { result ≡ borrowed_by (is_table self.now.hall o) (futures_of self.now.hall o) }
        ensures tells { result ≢ Some Stop.NoMemory }
    {
        match self.tables.get(o) {
            Some(entry) => borrowed_if(entry.has_futures()),
            None => Some(Stop::Unknown),
        }
    }

    // Makes a map or a group of a new core. On an error nothing has changed.
    fn make(&mut self, number: u64, core: C) -> Result<Reply, Stop>
        requires next { self.old.next ≤ number }
        requires new { IsNewKeyed (C.seen_as core) }
        ensures { KeyActsQuietly C.is_once self.old number MakeTable result self.new }
    {
        let entry = TableEntry::new(self.alloc, core);
        let Ok(()) = self.tables.insert(number, entry) else {
            return Err(Stop::NoMemory);
        };
        self.next = number as u128 + 1;
        Ok(Reply(Word::Made))
    }

    // Makes a future that computes the value of a key. On an error nothing has changed.
    fn begin(&mut self, number: u64, o: u64, key: u64) -> Result<Reply, Stop>
        requires { self.old.next ≤ number }
        ensures { KeyActsQuietly C.is_once self.old number (BeginKey o key) result self.new }
    {
        let Some(entry) = self.tables.get_mut(o) else {
            return Err(Stop::Unknown);
        };
        let future = KeyFuture {
            table: o,
            key,
            round: None,
            call: KeyCall::new(key, Scripted::unsettled()),
        };
        let Ok(()) = self.futures.insert(number, future) else {
            return Err(Stop::NoMemory);
        };
        entry.begin();
        self.next = number as u128 + 1;
        Ok(Reply(Word::Made))
    }

    // Polls a future. On an error nothing has changed.
    fn poll(
        &mut self,
        number: u64,
        f: u64,
        waker: u64,
        ready: &mut Ready<u64>,
    ) -> Result<Reply, Stop>
        requires next { self.old.next ≤ number }
        requires room { registered self.old.hall ≤ ready.old.registered }
        ensures { KeyActs C.is_once self.old number (PollKey f waker) result self.new ready.old ready.new }
    {
        let Some(future) = self.futures.get_mut(f) else {
            return Err(Stop::Unknown);
        };
        let entry = self.tables.at_mut(future.table);
        let Ok(told) = entry.poll(number, f, future, waker, ready) else {
            return Err(Stop::NoMemory);
        };
        self.futures.remove_if(f, told.over);
        self.next = number as u128 + 1;
        Ok(told.answer)
    }

    // Settles the initialiser of a future. It takes no memory.
    fn settle(
        &mut self,
        number: u64,
        f: u64,
        outcome: Initialiser,
        ready: &mut Ready<u64>,
    ) -> Result<Reply, Stop>
        requires next { self.old.next ≤ number }
        requires room { registered self.old.hall ≤ ready.old.registered }
        ensures { KeyActs C.is_once self.old number (SettleKey f outcome) result self.new ready.old ready.new }
    {
        let Some(future) = self.futures.get_mut(f) else {
            return Err(Stop::Unknown);
        };
        if !future.call.call.init.is_unsettled() {
            return Err(Stop::Unknown);
        }
        let entry = self.tables.at_mut(future.table);
        entry.settle(f, future, outcome, ready);
        self.next = number as u128 + 1;
        Ok(Reply(Word::Done))
    }

    // Ends a future. It takes no memory.
    fn end(&mut self, number: u64, f: u64, ready: &mut Ready<u64>) -> Result<Reply, Stop>
        requires next { self.old.next ≤ number }
        requires room { registered self.old.hall ≤ ready.old.registered }
        ensures { KeyActs C.is_once self.old number (EndKey f) result self.new ready.old ready.new }
    {
        let Some(future) = self.futures.take(f) else {
            return Err(Stop::Unknown);
        };
        let entry = self.tables.at_mut(future.table);
        entry.end(f, future, ready);
        self.next = number as u128 + 1;
        Ok(Reply(Word::Done))
    }

    // Takes a key out. It takes no memory.
    fn discard(&mut self, number: u64, o: u64, key: u64) -> Result<Reply, Stop>
        requires { self.old.next ≤ number }
        ensures { KeyActsQuietly C.is_once self.old number (DiscardKey o key) result self.new }
    {
        let Some(entry) = self.tables.get_mut(o) else {
            return Err(Stop::Unknown);
        };
        entry.discard(key);
        self.next = number as u128 + 1;
        Ok(Reply(Word::Done))
    }

    // Ends a map or a group that has no future. It takes no memory.
    fn end_table(&mut self, number: u64, o: u64) -> Result<Reply, Stop>
        requires { self.old.next ≤ number }
        ensures { KeyActsQuietly C.is_once self.old number (DropTable o) result self.new }
    {
        if let Some(stop) = self.cause_of_drop(o) {
            return Err(stop);
        }
        let _ = self.tables.remove(o);
        self.next = number as u128 + 1;
        Ok(Reply(Word::Done))
    }
}

impl<C: ValueCore> KeyPart<C> {
    /// Why an action is refused; None where it is not. It takes no memory.
    pub fn cause_value(&self, action: ValueAction) -> Option<Stop>
        ensures { result ≡ key_cause self.now.hall (value_action action) }
    {
        match action {
            ValueAction::Tell(o, _) | ValueAction::Remove(o, _) => {
                unknown_unless(self.is_table(o))
            }
        }
    }

    /// Does an action, or finds why it is refused. On an error nothing has changed. It takes no memory.
    pub fn act_value(&mut self, number: u64, action: ValueAction) -> Result<Reply, Stop>
        requires { self.old.next ≤ number }
        ensures { KeyActsQuietly C.TableCore.is_once self.old number (value_action action) result self.new }
    {
        match action {
            ValueAction::Tell(o, key) => self.tell(number, o, key),
            ValueAction::Remove(o, key) => self.remove(number, o, key),
        }
    }

    // Tells the value of a key. It takes no memory.
    fn tell(&mut self, number: u64, o: u64, key: u64) -> Result<Reply, Stop>
        requires { self.old.next ≤ number }
        ensures { KeyActsQuietly C.TableCore.is_once self.old number (TellKey o key) result self.new }
    {
        let Some(entry) = self.tables.get(o) else {
            return Err(Stop::Unknown);
        };
        let value = entry.value(key);
        self.next = number as u128 + 1;
        Ok(content(value))
    }

    // Takes a key out, and tells its value. It takes no memory.
    fn remove(&mut self, number: u64, o: u64, key: u64) -> Result<Reply, Stop>
        requires { self.old.next ≤ number }
        ensures { KeyActsQuietly C.TableCore.is_once self.old number (RemoveKey o key) result self.new }
    {
        let Some(entry) = self.tables.get_mut(o) else {
            return Err(Stop::Unknown);
        };
        let value = entry.value(key);
        entry.discard(key);
        self.next = number as u128 + 1;
        Ok(content(value))
    }
}
