ghost use Rattle.std.specs.Prelude.{◌≡◌, ◌≢◌, ◌+◌, ◌≤◌, not, IsOk, OnOk, OnErr, IsSome, Some, is_some};
ghost use Rattle.std.specs.Option.{option_copied, option_copied_mut};
ghost use Rattle.std.specs.Borrow.{sem};
ghost use Rattle.std.specs.HashMap.{spare};
ghost use Rattle.std.specs.FinMap as map;
ghost use Rattle.mea_base.specs.Named as entries;
ghost use Rattle.mea_by_name.specs.Beside.{stands, may_stand, may_follow};

use crate::name_hasher::NameHasher;
use mea_base::NoMemory;
use std::alloc::Global;
use std::collections::HashMap;
use std::marker::Model;

/// Things by name, with room for more of them that was made before it is known whether they come.
///
/// One thing stands beside a hashed map, and a call for it does not look into the map. Each call for another name costs a
/// look-up there, and so does what puts a thing beside a map that is not empty. The room is that of the map.
pub struct Roomy<X> {
    // The thing beside the map, and the name that it has.
    name: u64,
    one: Option<X>,
    map: HashMap<u64, X, NameHasher>,
}

impl<X> Model for Roomy<X> {
    ghost use Rattle.mea_by_name.specs.Room.{Room, room_code, room_of};
    ghost use Rattle.mea_by_name.specs.Beside.{IsApart};

    ghost Value = { Room X };

    ghost coded = { room_code X.code };

    ghost view = { λ m. room_of m.name m.one m.map };

    ghost invariant = { λ m. IsApart m.name m.one m.map.entries };
}

// Written out: a derived one is proved anew in each crate that hands a value of this type to a generic function.
impl<X: Drop> Drop for Roomy<X> {
    fn drop(self) {
        let Roomy {
            name: _,
            one: _,
            map: _,
        } = self;
    }
}

// What a map has at a name, if anything. The kit's map writes its search out at each call: these three calls stand apart, so
// that those of what stands beside the map are short.
#[inline(never)]
fn get_in<X>(map: &HashMap<u64, X, NameHasher>, name: u64) -> Option<&X>
    ensures { option_copied result ≡ entries.at map.now.entries name }
{
    map.get(&name)
}

// Puts a thing into a map, at a name. On an error the map has the same entries.
#[inline(never)]
fn put_in<X: Drop>(map: &mut HashMap<u64, X, NameHasher>, name: u64, x: X) -> Result<(), NoMemory>
    ensures changes { OnOk result (entries.ChangesAt map.old.entries map.new.entries name (Some x)) }
    ensures spare { spare map.old ≤ spare map.new + 1 }
    ensures err { OnErr result (map.new.entries ≡ map.old.entries) }
    ensures succeeds { 1 ≤ spare map.old → IsOk result }
{
    match map.insert(name, x) {
        Ok(_) => Ok(()),
        Err(_) => Err(NoMemory),
    }
}

// Takes the thing of a name out of a map, if there is one.
#[inline(never)]
fn take_from<X>(map: &mut HashMap<u64, X, NameHasher>, name: u64) -> Option<X>
    ensures value { result ≡ entries.at map.old.entries name }
    ensures changes { entries.ChangesAt map.old.entries map.new.entries name None }
    ensures spare { spare map.old ≤ spare map.new }
{
    map.remove(&name)
}

// Whether there is a thing, and this is its name.
#[inline(always)]
fn stands<X>(own: u64, one: &Option<X>, name: u64) -> bool
    ensures { result ≡ stands own one.now name }
{
    match one {
        Some(_) => name == own,
        None => false,
    }
}

// Whether a map has nothing at a name.
#[inline(always)]
fn lacks<X>(map: &HashMap<u64, X, NameHasher>, name: u64) -> bool
    ensures { result ≡ not (is_some (entries.at map.now.entries name)) }
{
    map.is_empty() || get_in(map, name).is_none()
}

// Whether the thing of a name stands beside the map, or may be put there.
#[inline(always)]
fn may_stand<X>(own: u64, one: &Option<X>, map: &HashMap<u64, X, NameHasher>, name: u64) -> bool
    ensures { result ≡ may_stand own one.now map.now.entries name }
{
    match one {
        Some(_) => name == own,
        None => lacks(map, name),
    }
}

// Whether the thing of a name stands beside the map, which has nothing at another name.
#[inline(always)]
fn may_follow<X>(
    own: u64,
    one: &Option<X>,
    map: &HashMap<u64, X, NameHasher>,
    from: u64,
    to: u64,
) -> bool
    ensures { result ≡ may_follow own one.now map.now.entries from to }
{
    stands(own, one, from) && lacks(map, to)
}

impl<X> Roomy<X> {
    ghost use Rattle.mea_by_name.specs.RoomyLends.{lends_thing, lends_if_there};

    /// No name. It takes no memory.
    pub fn new(alloc: Global) -> Self
        ensures { result.things ≡ map.empty }
    {
        Roomy {
            name: 0,
            one: None,
            map: HashMap::with_hasher(alloc, NameHasher::new()),
        }
    }

    /// Makes room for so many more. It looks no name up, and takes memory only where there is less room. On an error no thing
    /// has changed.
    pub fn reserve(&mut self, more: usize) -> Result<(), NoMemory>
        ensures room { OnOk result (more ≤ self.new.spare) }
        ensures grows { self.old.spare ≤ self.new.spare }
        ensures things { self.new.things ≡ self.old.things }
        ensures succeeds { more ≤ self.old.spare → IsOk result }
    {
        match self.map.reserve(more) {
            Ok(()) => Ok(()),
            Err(_) => Err(NoMemory),
        }
    }

    /// What stands at a name, if anything does.
    pub fn get(&self, name: u64) -> Option<&X>
        ensures { option_copied result ≡ map.get self.now.things name }
    {
        if stands(self.name, &self.one, name) {
            self.one.as_ref()
        } else {
            get_in(&self.map, name)
        }
    }

    /// Whether anything stands at a name.
    pub fn has(&self, name: u64) -> bool
        ensures { result ≡ is_some (map.get self.now.things name) }
    {
        self.get(name).is_some()
    }

    /// What stands at a name.
    pub fn at(&self, name: u64) -> &X
        requires { IsSome (map.get self.now.things name) }
        ensures { map.get self.now.things name ≡ Some result.now }
    {
        self.get(name).unwrap()
    }

    /// What stands at a name, for writing.
    pub fn at_mut(&mut self, name: u64) -> &mut X
        requires { IsSome (map.get self.old.things name) }
        ensures* writes_back { sem 𝓛 (lends_thing X.row self.entry name result) }
        ensures value { map.get self.old.things name ≡ Some result.now }
    {
        self.get_mut(name).unwrap()
    }

    /// What stands at a name, for writing, if anything does.
    pub fn get_mut(&mut self, name: u64) -> Option<&mut X>
        ensures* writes_back { sem 𝓛 (lends_if_there X.row self.entry name result) }
        ensures value { option_copied_mut result ≡ map.get self.old.things name }
    {
        if stands(self.name, &self.one, name) {
            self.one.as_mut()
        } else {
            self.map.get_mut(&name)
        }
    }

    // Puts a thing at a name. It takes memory only where there is no room. On an error no thing has changed.
    pub(crate) fn put(&mut self, name: u64, x: X) -> Result<(), NoMemory>
    where
        X: Drop,
        ensures things { OnOk result (self.new.things ≡ map.insert self.old.things name x) }
        ensures spare { self.old.spare ≤ self.new.spare + 1 }
        ensures err { OnErr result (self.new.things ≡ self.old.things) }
        ensures succeeds { 1 ≤ self.old.spare → IsOk result }
    {
        if may_stand(self.name, &self.one, &self.map, name) {
            self.name = name;
            self.one = Some(x);
            return Ok(());
        }
        let Ok(()) = put_in(&mut self.map, name, x) else {
            return Err(NoMemory);
        };
        Ok(())
    }

    // Takes the thing at a name away, and puts one at another name. On an error no thing has changed.
    pub(crate) fn replace(&mut self, from: u64, to: u64, x: X) -> Result<(), NoMemory>
    where
        X: Drop,
        requires { from ≢ to }
        ensures things { OnOk result (self.new.things ≡ map.insert (map.remove self.old.things from) to x) }
        ensures err { OnErr result (self.new.things ≡ self.old.things) }
    {
        if may_follow(self.name, &self.one, &self.map, from, to) {
            self.name = to;
            self.one = Some(x);
            return Ok(());
        }
        let Ok(()) = self.put(to, x) else {
            return Err(NoMemory);
        };
        let _ = self.take(from);
        Ok(())
    }

    /// Puts a thing at a name, where there is room. It takes no memory.
    pub fn insert(&mut self, name: u64, x: X)
    where
        X: Drop,
        requires { 1 ≤ self.old.spare }
        ensures things { self.new.things ≡ map.insert self.old.things name x }
        ensures spare { self.old.spare ≤ self.new.spare + 1 }
    {
        match self.put(name, x) {
            Ok(()) => {}
            Err(_) => unreachable!(),
        }
    }

    /// Takes the thing at a name away. It takes no memory.
    pub fn remove(&mut self, name: u64) -> X
        requires { IsSome (map.get self.old.things name) }
        ensures value { map.get self.old.things name ≡ Some result }
        ensures things { self.new.things ≡ map.remove self.old.things name }
        ensures spare { self.old.spare ≤ self.new.spare }
    {
        self.take(name).unwrap()
    }

    /// Takes the thing at a name away, if there is one. It takes no memory.
    pub fn take(&mut self, name: u64) -> Option<X>
        ensures value { result ≡ map.get self.old.things name }
        ensures things { self.new.things ≡ map.remove self.old.things name }
        ensures spare { self.old.spare ≤ self.new.spare }
    {
        if stands(self.name, &self.one, name) {
            self.one.take()
        } else {
            take_from(&mut self.map, name)
        }
    }
}
