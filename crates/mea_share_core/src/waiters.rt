ghost use Rattle.std.specs.Prelude.{◌≡◌, ◌+◌, ◌≤◌, ℕ, None, OnOk, OnErr, IfOk, IfErr, IfSome, IfNone, IsSome, Some, is_some};
ghost use Rattle.std.specs.FinMap as map;
ghost use Rattle.mea_share_core.specs.Share.{kept};

use mea_base::NoMemory;
use std::alloc::Global;
use std::collections::BTreeMap;
use std::marker::Model;
use std::mem;

/// The wakers of those of a key that wait, each under its number.
#[derive(Drop)]
pub struct Waiters<W> {
    wakers: WakerMap<W>,
    alloc: Global,
}

/// Wakers by number. One alone stands in place, so that a key of which one waits at a time has no tree.
#[derive(Drop)]
pub enum WakerMap<W> {
    Empty,
    One(u64, W),
    Many(BTreeMap<u64, W>),
}

impl<W> Model for Waiters<W> {
    ghost use Rattle.mea_share_core.specs.Share.{Numbers, numbers_code, kept};
    ghost use Rattle.mea_share_core.specs.Waiters.{wakers_of};

    ghost Value = { Numbers W };

    ghost coded = { numbers_code W.code };

    ghost view = { λ w. kept (wakers_of w.wakers) };
}

impl<W: Drop> Waiters<W> {
    // Nobody. It takes no memory.
    pub(crate) fn new(alloc: Global) -> Self
        ensures is { result ≡ map.empty }
        ensures none { map.len result ≡ 0 }
    {
        Waiters {
            wakers: WakerMap::Empty,
            alloc,
        }
    }

    // The least number that waits.
    pub(crate) fn first(&self) -> Option<u64>
        ensures there { IfSome result (λ n. IsSome (map.get self.now n)) }
        ensures least { IfSome result (λ n. (m : ℕ) → IsSome (map.get self.now m) → n ≤ m) }
        ensures none { IfNone result (self.now ≡ map.empty) }
    {
        match &self.wakers {
            WakerMap::Empty => None,
            WakerMap::One(number, _) => Some(*number),
            WakerMap::Many(tree) => match tree.first_key_value() {
                Some((number, _)) => Some(*number),
                None => None,
            },
        }
    }

    // Whether a number waits.
    pub(crate) fn has(&self, number: u64) -> bool
        ensures { result ≡ is_some (map.get self.now number) }
    {
        match &self.wakers {
            WakerMap::Empty => false,
            WakerMap::One(one, _) => number == *one,
            WakerMap::Many(tree) => tree.contains_key(&number),
        }
    }

    // The number waits with this waker, in the place of an earlier one.
    pub(crate) fn insert(&mut self, number: u64, waker: W) -> Result<(), W>
        ensures ok { OnOk result (self.new ≡ map.insert self.old number waker) }
        ensures more { OnOk result (map.get self.old number ≡ None → map.len self.new ≡ map.len self.old + 1) }
        ensures back { IfErr result (λ w. w ≡ waker) }
        ensures err { OnErr result (self.new ≡ self.old) }
    {
        if let WakerMap::Empty = &self.wakers {
            self.wakers = WakerMap::One(number, waker);
            return Ok(());
        }
        let Ok(mut tree) = self.take_tree() else {
            return Err(waker);
        };
        let inserted = tree.insert(number, waker);
        self.wakers = WakerMap::Many(tree);
        match inserted {
            Ok(_) => Ok(()),
            Err(failed) => Err(failed.value.1),
        }
    }

    // Takes the tree out, or makes one of the waker that stands alone.
    fn take_tree(&mut self) -> Result<BTreeMap<u64, W>, NoMemory>
        ensures tree { IfOk result (λ tree. kept tree.entries ≡ self.old) }
        ensures err { OnErr result (self.new ≡ self.old) }
    {
        let mut tree = BTreeMap::new(self.alloc);
        match mem::replace(&mut self.wakers, WakerMap::Empty) {
            WakerMap::Empty => Ok(tree),
            WakerMap::One(number, waker) => match tree.insert(number, waker) {
                Ok(_) => Ok(tree),
                Err(failed) => {
                    let (number, waker) = failed.value;
                    self.wakers = WakerMap::One(number, waker);
                    Err(NoMemory)
                }
            },
            WakerMap::Many(tree) => Ok(tree),
        }
    }

    // A number that waits has this waker now. It takes no memory.
    pub(crate) fn replace(&mut self, number: u64, waker: W)
        requires { IsSome (map.get self.old number) }
        ensures is { self.new ≡ map.insert self.old number waker }
        ensures as_many { map.len self.new ≡ map.len self.old }
    {
        match &mut self.wakers {
            WakerMap::Empty => unreachable!(),
            WakerMap::One(_, place) => *place = waker,
            WakerMap::Many(tree) => match tree.get_mut(&number) {
                Some(place) => *place = waker,
                None => unreachable!(),
            },
        }
    }

    // A number waits no more. It takes no memory.
    pub(crate) fn remove(&mut self, number: u64) -> W
        requires { IsSome (map.get self.old number) }
        ensures value { map.get self.old number ≡ Some result }
        ensures rest { self.new ≡ map.remove self.old number }
        ensures fewer { map.len self.new + 1 ≡ map.len self.old }
    {
        match mem::replace(&mut self.wakers, WakerMap::Empty) {
            WakerMap::Empty => unreachable!(),
            WakerMap::One(_, waker) => waker,
            WakerMap::Many(mut tree) => {
                let removed = tree.remove(&number);
                self.wakers = WakerMap::Many(tree);
                match removed {
                    Some(waker) => waker,
                    None => unreachable!(),
                }
            }
        }
    }
}
