ghost use Rattle.std.specs.Prelude.{true, if◌then◌else◌, ◌≡◌, ◌≢◌, OnOk, OnErr, IfSome, IsSome, Some, is_some};
ghost use Rattle.std.specs.Option.{option_copied, option_copied_mut};
ghost use Rattle.std.specs.Borrow.{sem};
ghost use Rattle.std.specs.FinMap as map;

use crate::roomy::Roomy;
use mea_base::NoMemory;
use std::alloc::Global;
use std::marker::Model;

/// Things by name. Each call costs a look-up in a hashed map, but for one thing that stands beside it.
pub struct ByName<X> {
    room: Roomy<X>,
}

impl<X> Model for ByName<X> {
    ghost use Rattle.mea_by_name.specs.ByName.{Names, names_code};

    ghost Value = { Names X };

    ghost coded = { names_code X.code };

    ghost view = { λ m. m.room.things };
}

// Written out: a derived one is proved anew in each crate that hands a value of this type to a generic function.
impl<X: Drop> Drop for ByName<X> {
    fn drop(self) {
        let ByName { room: _ } = self;
    }
}

impl<X> ByName<X> {
    ghost use Rattle.mea_by_name.specs.ByNameLends.{lends_value, lends_get};

    /// No name. It takes no memory.
    pub fn new(alloc: Global) -> Self
        ensures { result ≡ map.empty }
    {
        ByName {
            room: Roomy::new(alloc),
        }
    }

    /// What stands at a name, if anything does.
    pub fn get(&self, name: u64) -> Option<&X>
        ensures { option_copied result ≡ map.get self.now name }
    {
        self.room.get(name)
    }

    /// Whether anything stands at a name.
    pub fn has(&self, name: u64) -> bool
        ensures { result ≡ is_some (map.get self.now name) }
    {
        self.room.has(name)
    }

    /// What stands at a name.
    pub fn at(&self, name: u64) -> &X
        requires { IsSome (map.get self.now name) }
        ensures { map.get self.now name ≡ Some result.now }
    {
        self.room.at(name)
    }

    /// What stands at a name, for writing.
    pub fn at_mut(&mut self, name: u64) -> &mut X
        requires { IsSome (map.get self.old name) }
        ensures* writes_back { sem 𝓛 (lends_value X.row self.entry name result) }
        ensures value { map.get self.old name ≡ Some result.now }
    {
        self.room.at_mut(name)
    }

    /// What stands at a name, for writing, if anything does.
    pub fn get_mut(&mut self, name: u64) -> Option<&mut X>
        ensures* writes_back { sem 𝓛 (lends_get X.row self.entry name result) }
        ensures value { option_copied_mut result ≡ map.get self.old name }
    {
        self.room.get_mut(name)
    }

    /// Puts a thing at a name. On an error nothing has changed.
    pub fn insert(&mut self, name: u64, x: X) -> Result<(), NoMemory>
    where
        X: Drop,
        ensures ok { OnOk result (self.new ≡ map.insert self.old name x) }
        ensures err { OnErr result (self.new ≡ self.old) }
    {
        self.room.put(name, x)
    }

    /// Takes the thing at a name away, and puts one at another name. It takes no memory where the thing stands beside the map,
    /// which has nothing at the other name. On an error nothing has changed.
    pub fn replace(&mut self, from: u64, to: u64, x: X) -> Result<(), NoMemory>
    where
        X: Drop,
        requires { from ≢ to }
        ensures ok { OnOk result (self.new ≡ map.insert (map.remove self.old from) to x) }
        ensures err { OnErr result (self.new ≡ self.old) }
    {
        self.room.replace(from, to, x)
    }

    /// Takes the thing at a name away. It takes no memory.
    pub fn remove(&mut self, name: u64) -> X
        requires { IsSome (map.get self.old name) }
        ensures value { map.get self.old name ≡ Some result }
        ensures rest { self.new ≡ map.remove self.old name }
    {
        self.take(name).unwrap()
    }

    /// Takes the thing at a name away, if there is one. It takes no memory.
    pub fn take(&mut self, name: u64) -> Option<X>
        ensures value { result ≡ map.get self.old name }
        ensures rest { self.new ≡ map.remove self.old name }
    {
        self.room.take(name)
    }

    /// Takes the thing at a name away where it is over. It takes no memory.
    pub fn remove_if(&mut self, name: u64, over: bool)
    where
        X: Drop,
        requires { over ≡ true → IsSome (map.get self.old name) }
        ensures { self.new ≡ (if over then map.remove self.old name else self.old) }
    {
        if over {
            let _ = self.remove(name);
        }
    }
}
