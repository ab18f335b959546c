ghost use Rattle.std.specs.Prelude.{◌≡◌, ◌≢◌, ℕ, ◌<◌, ◌≤◌, ◌+◌, ◌-◌, ◌^◌, length, true, false, ◌⊎◌, IsSome, IsOk, IfSome, IfOk, IfErr, OnOk, OnErr, None, slice_get};
ghost use Rattle.std.specs.HashMap as hash;
ghost use Rattle.slab.specs.Slab as slab;
ghost use Rattle.mea_once_core.specs.Permit.{MayPoll, MayEnd};
ghost use Rattle.mea_once_core.specs.Inserts.{Inserts};
ghost use Rattle.mea_once_core.specs.Slots.{PollsSlot, EndsSlot, RestsSlot};
ghost use Rattle.mea_once_core.specs.Links.{AreLinked, Shown, shown_at, Changes, SameEntries, SameNumbers, Renumbers, Forgets, unlisted, left};

use crate::cell_core::CellCore;
use crate::entry::Entry;
use crate::init::Init;
use crate::init_call::InitCall;
use indexmap::IndexMap;
use mea_base::{NoMemory, Outbox, Poll};
use slab::Slab;
use std::hash::{BuildHasher, Hash};

impl<V, W> Entry<V, W> {
    // Its place is this.
    fn sit(&mut self, place: Option<usize>)
        ensures { self.new ≡ record self.old { place = place } }
    {
        self.place = place;
    }
}

// The entry gets this place, or none.
fn seat<V, W>(entries: &mut Slab<Entry<V, W>>, number: usize, place: Option<usize>)
    requires { IsSome (slab.get entries.old number) }
    ensures seated { IfSome (slab.get entries.old number) (λ e. slab.Updates entries.old entries.new number (Some (record e { place = place }))) }
{
    if let Some(entry) = entries.get_mut(number) {
        entry.sit(place);
    }
}

// The entry at this place leaves the table, and stays for its callers.
fn take_out<K: Eq + Hash + Drop, V, S: BuildHasher, W>(
    entries: &mut Slab<Entry<V, W>>,
    numbers: &mut IndexMap<K, usize, S>,
    number: usize,
    place: usize,
)
    requires linked { AreLinked entries.old numbers.old.entries }
    requires here { IfSome (slab.get entries.old number) (λ e. e.place ≡ Some place) }
    requires there { IsSome (slab.get entries.old number) }
    ensures linked { AreLinked entries.new numbers.new.entries }
    ensures entries { (e : Shown V W) → shown_at entries.old.slots number ≡ Some e → Changes entries.old.slots entries.new.slots number (Some (record e { listed = false })) }
    ensures numbers { Forgets K.eq numbers.old.entries numbers.new.entries number }
{
    let _ = numbers.get_index(place);
    let _ = numbers.swap_remove_index(place);
    seat(entries, number, None);
    if let Some((_, moved)) = numbers.get_index(place) {
        seat(entries, *moved, Some(place));
    }
}

// The entry leaves the table where that has it, and stays for its callers.
pub(crate) fn unlist<K: Eq + Hash + Drop, V, S: BuildHasher, W>(
    entries: &mut Slab<Entry<V, W>>,
    numbers: &mut IndexMap<K, usize, S>,
    number: usize,
)
    requires linked { AreLinked entries.old numbers.old.entries }
    ensures linked { AreLinked entries.new numbers.new.entries }
    ensures listed { (e : Shown V W) → shown_at entries.old.slots number ≡ Some e → e.listed ≡ true → Changes entries.old.slots entries.new.slots number (Some (record e { listed = false })) × Forgets K.eq numbers.old.entries numbers.new.entries number }
    ensures unlisted { (e : Shown V W) → shown_at entries.old.slots number ≡ Some e → e.listed ≡ false → SameEntries entries.old.slots entries.new.slots × SameNumbers K.eq numbers.old.entries numbers.new.entries }
{
    let Some(entry) = entries.get(number) else {
        return;
    };
    let Some(place) = entry.place else {
        return;
    };
    take_out(entries, numbers, number, place);
}

// The entry has one caller more.
pub(crate) fn join<V, W>(entries: &mut Slab<Entry<V, W>>, number: usize)
    requires there { IsSome (slab.get entries.old number) }
    requires few { IfSome (slab.get entries.old number) (λ e. e.callers + 1 < 2 ^ 64) }
    ensures joined { IfSome (slab.get entries.old number) (λ e. slab.Updates entries.old entries.new number (Some (record e { callers = e.callers + 1 }))) }
{
    if let Some(entry) = entries.get_mut(number) {
        entry.callers += 1;
    }
}

// The entry has one caller less.
pub(crate) fn unjoin<V, W>(entries: &mut Slab<Entry<V, W>>, number: usize)
    requires there { IsSome (slab.get entries.old number) }
    requires some { IfSome (slab.get entries.old number) (λ e. 1 ≤ e.callers) }
    ensures left { IfSome (slab.get entries.old number) (λ e. slab.Updates entries.old entries.new number (Some (record e { callers = e.callers - 1 }))) }
{
    if let Some(entry) = entries.get_mut(number) {
        entry.callers -= 1;
    }
}

// An entry that has no caller, and that the table has not got, is in use no more.
pub(crate) fn drop_unused<V: Drop, W: Drop>(entries: &mut Slab<Entry<V, W>>, number: usize)
    ensures absent { slab.get entries.old number ≡ None → entries.new ≡ entries.old }
    ensures used { IfSome (slab.get entries.old number) (λ e. (e.callers ≢ 0) ⊎ IsSome e.place → entries.new ≡ entries.old) }
    ensures unused { IfSome (slab.get entries.old number) (λ e. e.callers ≡ 0 → e.place ≡ None → slab.Updates entries.old entries.new number None) }
{
    let Some(entry) = entries.get(number) else {
        return;
    };
    if entry.callers != 0 {
        return;
    }
    if entry.place.is_some() {
        return;
    }
    let _ = entries.try_remove(number);
}

// Makes room for one entry more; at first for no other, since many tables have one key.
pub(crate) fn reserve_one<V, W>(entries: &mut Slab<Entry<V, W>>) -> Result<(), NoMemory>
    ensures room { OnOk result (slab.HasRoomFor entries.new 1) }
    ensures succeeds { slab.HasRoomFor entries.old 1 → IsOk result }
    ensures rest_kept { entries.new ≡ record entries.old { capacity = entries.new.capacity } }
    ensures capacity { entries.old.capacity ≤ entries.new.capacity }
{
    if entries.capacity() == 0 {
        entries.reserve_exact(1)?;
        return Ok(());
    }
    entries.reserve(1)?;
    Ok(())
}

// A new entry for a key that the table has not.
pub(crate) fn make<K: Eq + Hash + Drop, V: Drop, S: BuildHasher, W: Drop>(
    entries: &mut Slab<Entry<V, W>>,
    numbers: &mut IndexMap<K, usize, S>,
    key: K,
    cell: CellCore<V, W>,
    callers: usize,
) -> Result<usize, (K, NoMemory)>
    requires linked { AreLinked entries.old numbers.old.entries }
    requires new { hash.get K.eq numbers.old key ≡ None }
    ensures linked { AreLinked entries.new numbers.new.entries }
    ensures fresh { IfOk result (λ n. shown_at entries.old.slots n ≡ None) }
    ensures entries { IfOk result (λ n. Changes entries.old.slots entries.new.slots n (Some (record { cell = cell; callers = callers; listed = true }))) }
    ensures numbers { IfOk result (λ n. Renumbers K.eq numbers.old.entries numbers.new.entries key (Some n)) }
    ensures err { IfErr result (λ e. (e.0 ≡ key) × SameEntries entries.old.slots entries.new.slots × SameNumbers K.eq numbers.old.entries numbers.new.entries) }
    ensures succeeds { slab.HasRoomFor entries.old 1 → 1 ≤ hash.spare numbers.old → IsOk result }
{
    match reserve_one(entries) {
        Ok(()) => {}
        Err(_) => return Err(refused(key, cell)),
    }
    let number = entries.vacant_key();
    let place = numbers.len();
    match numbers.insert(key, number) {
        Ok(_) => {
            let _ = entries.insert_reserved(Entry {
                cell,
                callers,
                place: Some(place),
            });
            Ok(number)
        }
        Err(failed) => Err(refused(failed.value.0, cell)),
    }
}

// The key for which there was no memory. What was to stand under it goes by a type parameter, so that no proof takes a
// cell apart to drop it.
fn refused<K, C: Drop>(key: K, _cell: C) -> (K, NoMemory)
    ensures { result.0 ≡ key }
{
    (key, NoMemory)
}

// A new entry takes the place of the one that a key has, which stays for its callers.
fn replace<K: Eq + Hash + Drop, V: Drop, S: BuildHasher, W: Drop>(
    entries: &mut Slab<Entry<V, W>>,
    numbers: &mut IndexMap<K, usize, S>,
    key: K,
    number: usize,
    cell: CellCore<V, W>,
) -> usize
    requires linked { AreLinked entries.old numbers.old.entries }
    requires room { slab.HasRoomFor entries.old 1 }
    requires there { hash.get K.eq numbers.old key ≡ Some number }
    ensures linked { AreLinked entries.new numbers.new.entries }
    ensures fresh { shown_at entries.old.slots result ≡ None }
    ensures entry { shown_at entries.new.slots result ≡ Some (record { cell = cell; callers = 0; listed = true }) }
    ensures replaced { (e : Shown V W) → shown_at entries.old.slots number ≡ Some e → shown_at entries.new.slots number ≡ unlisted e }
    ensures others { (m : ℕ) → m ≢ result → m ≢ number → shown_at entries.new.slots m ≡ shown_at entries.old.slots m }
    ensures numbers { Renumbers K.eq numbers.old.entries numbers.new.entries key (Some result) }
{
    let fresh = entries.vacant_key();
    let Ok((place, _)) = numbers.insert_full(key, fresh) else {
        unreachable!();
    };
    let _ = entries.insert_reserved(Entry {
        cell,
        callers: 0,
        place: Some(place),
    });
    seat(entries, number, None);
    drop_unused(entries, number);
    fresh
}

// A new entry with no caller for a key, in the place of the one that it may have.
pub(crate) fn put<K: Eq + Hash + Drop, V: Drop, S: BuildHasher, W: Drop>(
    entries: &mut Slab<Entry<V, W>>,
    numbers: &mut IndexMap<K, usize, S>,
    key: K,
    cell: CellCore<V, W>,
)
    requires linked { AreLinked entries.old numbers.old.entries }
    requires room { slab.HasRoomFor entries.old 1 }
    requires spare { 1 ≤ hash.spare numbers.old }
    ensures linked { AreLinked entries.new numbers.new.entries }
    ensures inserts { Inserts K.eq (record { slots = entries.old.slots; pairs = numbers.old.entries }) (record { slots = entries.new.slots; pairs = numbers.new.entries }) key cell }
{
    match numbers.get(&key).copied() {
        Some(number) => {
            let _ = replace(entries, numbers, key, number, cell);
        }
        None => {
            let Ok(_) = make(entries, numbers, key, cell, 0) else {
                unreachable!();
            };
        }
    }
}

// Polls a call of an entry's cell.
pub(crate) fn poll_init<V: Drop, W: Drop, E: Drop, I: Init<V, E, W>>(
    entries: &mut Slab<Entry<V, W>>,
    number: usize,
    call: &mut InitCall<I>,
    waker: W,
) -> Result<Poll<Result<(), E>>, (W, NoMemory)>
    requires there { IsSome (slab.get entries.old number) }
    requires may { IfSome (slab.get entries.old number) (λ e. MayPoll e.cell.permit call.old.stage) }
    requires init { I.may_poll call.old.init }
    ensures again { IfOk result (λ poll. poll ≡ Poll.Pending → I.may_poll call.new.init) }
    ensures back { OnErr result (call.new ≡ call.old) }
    ensures polls { IfSome (slab.get entries.old number) (λ e. PollsSlot I.answers entries.old.slots number e call.old waker result entries.new.slots call.new) }
{
    entries[number].cell.poll_init(call, waker)
}

// Ends a call of an entry's cell.
pub(crate) fn end_init<V: Drop, W: Drop, I: Drop>(
    entries: &mut Slab<Entry<V, W>>,
    number: usize,
    call: InitCall<I>,
)
    requires there { IsSome (slab.get entries.old number) }
    requires may { IfSome (slab.get entries.old number) (λ e. MayEnd e.cell.permit call.stage) }
    ensures ends { IfSome (slab.get entries.old number) (λ e. EndsSlot entries.old.slots number e call.stage entries.new.slots) }
{
    entries[number].cell.end_init(call);
}

// Moves the wakers that an entry's cell has made ready.
pub(crate) fn move_wakes<V: Drop, W: Drop>(
    entries: &mut Slab<Entry<V, W>>,
    number: usize,
    out: &mut Outbox<W>,
)
    requires there { IsSome (slab.get entries.old number) }
    requires room { IfSome (slab.get entries.old number) (λ e. length e.cell.permit.wakes ≤ out.old.spare) }
    ensures rests { IfSome (slab.get entries.old number) (λ e. RestsSlot entries.old.slots number e out.old out.new entries.new.slots) }
{
    entries[number].cell.move_wakes(out);
}
