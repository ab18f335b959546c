ghost use Rattle.std.specs.Prelude.{◌≡◌, ◌+◌, ◌≤◌, ℕ, None, OnOk, OnErr, IfErr, IfSome, IfNone, IsSome, Some, is_some};
ghost use Rattle.std.specs.FinMap as map;

use std::alloc::Global;
use std::collections::BTreeMap;
use std::marker::Model;

/// Things by number, in the order of their numbers.
#[derive(Drop)]
pub struct ByOrder<X> {
    map: BTreeMap<u64, X>,
}

impl<X> Model for ByOrder<X> {
    ghost use Rattle.mea_by_name.specs.ByName.{Names, names_code, kept};

    ghost Value = { Names X };

    ghost coded = { names_code X.code };

    ghost view = { λ m. kept m.map.entries };
}

impl<X: Drop> ByOrder<X> {
    // Nothing. It takes no memory.
    pub(crate) fn new(alloc: Global) -> Self
        ensures { result ≡ map.empty }
    {
        ByOrder {
            map: BTreeMap::new(alloc),
        }
    }

    // The least number.
    pub(crate) fn first(&self) -> Option<u64>
        ensures there { IfSome result (λ n. IsSome (map.get self.now n)) }
        ensures least { IfSome result (λ n. (m : ℕ) → IsSome (map.get self.now m) → n ≤ m) }
        ensures none { IfNone result (self.now ≡ map.empty) }
    {
        match self.map.first_key_value() {
            Some((number, _)) => Some(*number),
            None => None,
        }
    }

    // Whether a number has something.
    pub(crate) fn has(&self, number: u64) -> bool
        ensures { result ≡ is_some (map.get self.now number) }
    {
        self.map.contains_key(&number)
    }

    // Puts a thing under a number, or hands it back where there is no memory.
    pub(crate) fn insert(&mut self, number: u64, thing: X) -> Result<(), X>
        ensures ok { OnOk result (self.new ≡ map.insert self.old number thing) }
        ensures back { IfErr result (λ x. x ≡ thing) }
        ensures err { OnErr result (self.new ≡ self.old) }
    {
        match self.map.insert(number, thing) {
            Ok(_) => Ok(()),
            Err(failed) => Err(failed.value.1),
        }
    }

    // Takes the thing under a number. It takes no memory.
    pub(crate) fn remove(&mut self, number: u64) -> X
        requires { IsSome (map.get self.old number) }
        ensures value { map.get self.old number ≡ Some result }
        ensures rest { self.new ≡ map.remove self.old number }
    {
        match self.map.remove(&number) {
            Some(thing) => thing,
            None => unreachable!(),
        }
    }
}
