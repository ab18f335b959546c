use crate::cell_core::CellCore;
use crate::entries::{
    drop_unused, end_init, join, make, move_wakes, poll_init, put, reserve_one, unjoin, unlist,
};
use crate::entry::Entry;
use crate::init::Init;
use crate::init_call::InitCall;
use indexmap::IndexMap;
use mea_base::{NoMemory, Outbox, Poll};
use slab::Slab;
use std::alloc::Global;
use std::hash::{BuildHasher, Hash};
use std::marker::Model;

/// Cells by key, which their callers keep by number.
///
/// An entry is in use while the table has it or it has a caller, and keeps its number until then. The
/// numbers of entries in use differ. Nothing is asked of the hashes: they may all collide.
///
/// It ports `mea`'s internal `OnceTable`.
pub struct OnceTable<K: Eq + Hash, V, S: BuildHasher, W> {
    entries: Slab<Entry<V, W>>,
    numbers: IndexMap<K, usize, S>,
    alloc: Global,
}

impl<K: Eq + Hash, V, S: BuildHasher, W> Model for OnceTable<K, V, S, W> {
    ghost use Rattle.mea_once_core.specs.Links.{AreLinked};
    ghost use Rattle.mea_once_core.specs.Table.{Table, table_code};

    ghost Value = { Table K V W };

    ghost coded = { table_code K.code V.code W.code };

    ghost view = { λ t. record { slots = t.entries.slots; pairs = t.numbers.entries } };

    ghost invariant = { λ t. AreLinked t.entries t.numbers.entries };
}

// Written out: a derived one is proved anew in each crate that hands a value of this type to a generic function.
impl<K: Eq + Hash + Drop, V: Drop, S: BuildHasher + Drop, W: Drop> Drop for OnceTable<K, V, S, W> {
    fn drop(self) {
        let OnceTable {
            entries: _,
            numbers: _,
            alloc: _,
        } = self;
    }
}

impl<K: Eq + Hash + Drop, V: Drop, S: BuildHasher + Drop, W: Drop> OnceTable<K, V, S, W> {
    ghost use Rattle.std.specs.Prelude.{◌≡◌, ◌<◌, ◌≤◌, ◌↔◌, ℕ, IsTrue, IsSome, IfSome, IfOk, IfErr, IfNone, OnOk, OnErr, length, true, false, Some};
    ghost use Rattle.mea_once_core.specs.Links.{Shown, left};
    ghost use Rattle.mea_once_core.specs.Table.{entry_at, number_of, HasCaller, IsSame, HasRoom, Sets, Joins, Makes, Unlists, Retires, PollsEntry, EndsEntry, RestsEntry, empty_cell};
    ghost use Rattle.mea_once_core.specs.Permit.{MayPoll, MayEnd};
    ghost use Rattle.std.specs.Borrow.{sem};
    ghost use Rattle.mea_once_core.specs.TableLends.{lends_cell};
    ghost use Rattle.mea_once_core.specs.Inserts.{Inserts, IsIdle, full_cell, last_value, value_in};

    /// A table with no entry. It takes no memory.
    pub fn with_hasher(alloc: Global, hasher: S) -> Self
        ensures entries { (n : ℕ) → entry_at result n ≡ None }
        ensures numbers { (key : K) → number_of K.eq result key ≡ None }
    {
        OnceTable {
            entries: Slab::new(alloc),
            numbers: IndexMap::with_hasher(alloc, hasher),
            alloc,
        }
    }

    /// A table with no entry, and with room for so many.
    pub fn with_capacity_and_hasher(
        alloc: Global,
        capacity: usize,
        hasher: S,
    ) -> Result<Self, NoMemory>
        ensures entries { IfOk result (λ t. (n : ℕ) → entry_at t n ≡ None) }
        ensures numbers { IfOk result (λ t. (key : K) → number_of K.eq t key ≡ None) }
    {
        let Ok(entries) = Slab::with_capacity(alloc, capacity) else {
            return Err(NoMemory);
        };
        let Ok(numbers) = IndexMap::with_capacity_and_hasher(alloc, capacity, hasher) else {
            return Err(NoMemory);
        };
        Ok(OnceTable {
            entries,
            numbers,
            alloc,
        })
    }

    /// The number of the entry that the table has for a key. It takes no memory.
    pub fn get(&self, key: &K) -> Option<usize>
        ensures is { result ≡ number_of K.eq self.now key.now }
        ensures in_use { IfSome result (λ n. IsSome (entry_at self.now n)) }
    {
        self.numbers.get(key).copied()
    }

    /// Whether the entry is in use. It takes no memory.
    pub fn is_in_use(&self, number: usize) -> bool
        ensures { IsTrue result ↔ IsSome (entry_at self.now number) }
    {
        self.entries.contains(number)
    }

    /// How many callers an entry has. It takes no memory.
    pub fn callers(&self, number: usize) -> usize
        requires { IsSome (entry_at self.now number) }
        ensures { IfSome (entry_at self.now number) (λ e. result ≡ e.callers) }
    {
        match self.entries.get(number) {
            Some(entry) => entry.callers,
            None => unreachable!(),
        }
    }

    /// The cell of an entry. It takes no memory.
    pub fn cell(&self, number: usize) -> &CellCore<V, W>
        requires { IsSome (entry_at self.now number) }
        ensures { IfSome (entry_at self.now number) (λ e. result.now ≡ e.cell) }
    {
        match self.entries.get(number) {
            Some(entry) => &entry.cell,
            None => unreachable!(),
        }
    }

    /// The cell of an entry, for writing. It takes no memory.
    pub fn cell_mut(&mut self, number: usize) -> &mut CellCore<V, W>
        requires { IsSome (entry_at self.old number) }
        ensures* writes_back { sem 𝓛 (lends_cell K.row V.row S.row W.row S.Hasher.row K.Hash S.BuildHasher S.Hasher.Hasher self.entry number result) }
        ensures cell { IfSome (entry_at self.old number) (λ e. result.now ≡ e.cell) }
    {
        &mut self.entries[number].cell
    }

    // A further caller of an entry.
    pub(crate) fn join(&mut self, number: usize)
        requires { (e : Shown V W) × (entry_at self.old number ≡ Some e) × (e.callers < usize.MAX) }
        ensures { Joins K.eq self.old self.new number }
    {
        join(&mut self.entries, number);
    }

    // Polls a call of an entry's cell.
    pub(crate) fn poll_init<E: Drop, I: Init<V, E, W>>(
        &mut self,
        number: usize,
        call: &mut InitCall<I>,
        waker: W,
    ) -> Result<Poll<Result<(), E>>, (W, NoMemory)>
        requires there { IsSome (entry_at self.old number) }
        requires may { (e : Shown V W) → entry_at self.old number ≡ Some e → MayPoll e.cell.permit call.old.stage }
        requires init { I.may_poll call.old.init }
        ensures again { IfOk result (λ poll. poll ≡ Poll.Pending → I.may_poll call.new.init) }
        ensures back { OnErr result (call.new ≡ call.old) }
        ensures polls { (e : Shown V W) → entry_at self.old number ≡ Some e → PollsEntry I.answers K.eq self.old number e call.old waker result self.new call.new }
    {
        poll_init(&mut self.entries, number, call, waker)
    }

    // Ends a call of an entry's cell.
    pub(crate) fn end_init<I: Drop>(&mut self, number: usize, call: InitCall<I>)
        requires there { IsSome (entry_at self.old number) }
        requires may { (e : Shown V W) → entry_at self.old number ≡ Some e → MayEnd e.cell.permit call.stage }
        ensures ends { (e : Shown V W) → entry_at self.old number ≡ Some e → EndsEntry K.eq self.old number e call.stage self.new }
    {
        end_init(&mut self.entries, number, call);
    }

    // Moves the wakers that an entry's cell has made ready.
    pub(crate) fn move_wakes(&mut self, number: usize, out: &mut Outbox<W>)
        requires there { IsSome (entry_at self.old number) }
        requires room { (e : Shown V W) → entry_at self.old number ≡ Some e → length e.cell.permit.wakes ≤ out.old.spare }
        ensures rests { (e : Shown V W) → entry_at self.old number ≡ Some e → RestsEntry K.eq self.old number e out.old out.new self.new }
    {
        move_wakes(&mut self.entries, number, out);
    }

    /// The number of the key's entry, which has one caller more; where the table has none it makes an empty
    /// one with this caller. With no memory nothing has changed, and the key comes back.
    pub fn get_or_insert(&mut self, key: K) -> Result<usize, (K, NoMemory)>
        requires { HasRoom K.eq self.old key }
        ensures found { (n : ℕ) → number_of K.eq self.old key ≡ Some n → (result ≡ Ok n) × Joins K.eq self.old self.new n }
        ensures made { number_of K.eq self.old key ≡ None → IfOk result (λ n. Makes K.eq self.old self.new key n (record { cell = empty_cell; callers = 1; listed = true })) }
        ensures err { IfErr result (λ e. (e.0 ≡ key) × IsSame K.eq self.old self.new) }
    {
        if let Some(number) = self.numbers.get(&key) {
            let number = *number;
            join(&mut self.entries, number);
            return Ok(number);
        }
        make(
            &mut self.entries,
            &mut self.numbers,
            key,
            CellCore::new(self.alloc),
            1,
        )
    }

    /// The key has a new entry with this value and no caller; the one that it had stays for its callers. With no
    /// memory nothing has changed, and key and value come back.
    pub fn insert(&mut self, key: K, value: V) -> Result<(), (K, V, NoMemory)>
        ensures ok { OnOk result (Inserts K.eq self.old self.new key (full_cell value)) }
        ensures err { IfErr result (λ e. (e.0 ≡ key) × (e.1 ≡ value) × IsSame K.eq self.old self.new) }
    {
        if reserve_one(&mut self.entries).is_err() {
            return Err((key, value, NoMemory));
        }
        if self.numbers.reserve(1).is_err() {
            return Err((key, value, NoMemory));
        }
        let cell = CellCore::from_value(self.alloc, value);
        put(&mut self.entries, &mut self.numbers, key, cell);
        Ok(())
    }

    // A table of these pairs, in which the last pair of a key stands.
    pub(crate) fn from_pairs(alloc: Global, pairs: Vec<(K, V)>, hasher: S) -> Result<Self, NoMemory>
        ensures entries { IfOk result (λ t. (n : ℕ) (e : Shown V W) → entry_at t n ≡ Some e → IsIdle e) }
        ensures values { IfOk result (λ t. (key : K) → value_in K.eq t key ≡ last_value K.eq pairs.items key) }
    {
        let mut table = OnceTable::with_capacity_and_hasher(alloc, pairs.len(), hasher)?;
        for (key, value) in pairs {
            match table.insert(key, value) {
                Ok(()) => {}
                Err(_) => return Err(NoMemory),
            }
        }
        Ok(table)
    }

    /// The key's entry leaves the table. It takes no memory.
    pub fn remove(&mut self, key: &K) -> Option<usize>
        ensures is { result ≡ number_of K.eq self.old key.now }
        ensures some { IfSome result (λ n. Unlists K.eq self.old self.new n) }
        ensures none { IfNone result (IsSame K.eq self.old self.new) }
    {
        let number = *self.numbers.get(key)?;
        unlist(&mut self.entries, &mut self.numbers, number);
        drop_unused(&mut self.entries, number);
        Some(number)
    }

    /// The entry leaves the table where that has it. It takes no memory.
    pub fn remove_entry(&mut self, number: usize)
        requires { HasCaller self.old number }
        ensures listed { IfSome (entry_at self.old number) (λ e. e.listed ≡ true → Unlists K.eq self.old self.new number) }
        ensures unlisted { IfSome (entry_at self.old number) (λ e. e.listed ≡ false → IsSame K.eq self.old self.new) }
    {
        unlist(&mut self.entries, &mut self.numbers, number);
    }

    // An empty entry with one caller alone leaves the table.
    pub(crate) fn retire(&mut self, number: usize)
        requires { HasCaller self.old number }
        ensures { (e : Shown V W) → entry_at self.old number ≡ Some e → Retires K.eq self.old number e self.new }
    {
        if self.callers(number) == 1 && !self.cell(number).is_full() {
            self.remove_entry(number);
        }
    }

    /// The entry has one caller less; where it has none any more and the table has not got it, it is in use
    /// no more. It takes no memory.
    pub fn leave(&mut self, number: usize)
        requires { HasCaller self.old number }
        ensures { (e : Shown V W) → entry_at self.old number ≡ Some e → Sets K.eq self.old self.new number (left e) }
    {
        unjoin(&mut self.entries, number);
        drop_unused(&mut self.entries, number);
    }
}
