ghost use Rattle.std.specs.Prelude.{◌≡◌, ◌+◌, ◌*◌, ◌<◌, ◌≤◌, ◌^◌, ℕ, [], length, Some, None, slice_get, OnOk, OnErr, IfOk, IfErr, IfSome, IfNone, get_or};
ghost use Rattle.std.specs.Map.{lookup, keys_of, values_of};
ghost use Rattle.std.specs.List.{IsDistinct};
ghost use Rattle.indexmap.specs.IndexMap.{set_value_at};
ghost use Rattle.mea_share_core.specs.Share.{Share, new_share, held_of, waiting_of, IsWaiting, IsAdmitted, taken, queued, left, readied, given_up, released, weighing};
ghost use Rattle.mea_share_core.specs.Groups.{held_in, waiting_in, Ranks, AreRanked, AreRankedBut, share_in, IsAlike, Sets, StandsAt, Leads, Admits};
ghost use Rattle.std.specs.FinMap as map;

use crate::rank::Rank;
use crate::share_group::ShareGroup;
use crate::shared_key::SharedKey;
use crate::tournament::Tournament;
use indexmap::IndexMap;
use mea_base::NoMemory;
use std::alloc::Global;
use std::hash::{BuildHasher, Hash};
use std::marker::Model;

/// A group for each key of which something is left, found by a hashed map, with a tournament over those that wait.
///
/// A group has a place, where it is changed; a group of which nothing is left goes, and the last takes its place. The
/// tournament is played again only where a group's rank may have changed.
pub struct Groups<K: Eq + Hash, W, S: BuildHasher> {
    map: IndexMap<SharedKey<K>, ShareGroup<W>, S>,
    tournament: Tournament,
    alloc: Global,
}

impl<K: Eq + Hash, W, S: BuildHasher> Model for Groups<K, W, S> {
    ghost use Rattle.std.specs.Prelude.{List, length, ◌≤◌};
    ghost use Rattle.mea_share_core.specs.Share.{Share};
    ghost use Rattle.mea_share_core.specs.Groups.{AreRanked, groups_code};

    ghost Value = { List (K × Share W) };

    ghost coded = { groups_code K.code W.code };

    ghost view = { λ g. g.map.entries };

    ghost invariant = { λ g. record {
      ranked : AreRanked g.map.entries g.tournament;
      room : length g.map.entries ≤ length g.tournament;
    } };
}

// Written out: a derived one is proved anew in each crate that hands a value of this type to a generic function.
impl<K: Eq + Hash + Drop, W: Drop, S: BuildHasher + Drop> Drop for Groups<K, W, S> {
    fn drop(self) {
        let Groups {
            map: _,
            tournament: _,
            alloc: _,
        } = self;
    }
}

// The rank of the group at a place, if someone waits there.
fn rank_at<K: Eq + Hash + Drop, W: Drop, S: BuildHasher>(
    map: &IndexMap<SharedKey<K>, ShareGroup<W>, S>,
    place: usize,
) -> Option<Rank>
    ensures { Ranks place (slice_get map.now.entries place) result }
{
    match map.get_index(place) {
        Some((_, group)) => group.rank(place),
        None => None,
    }
}

// A group of which nothing is left goes. The last takes its place, where it has no rank yet.
fn drop_idle<K: Eq + Hash + Drop, W: Drop, S: BuildHasher>(
    map: &mut IndexMap<SharedKey<K>, ShareGroup<W>, S>,
    tournament: &mut Tournament,
    place: usize,
)
    requires within { place < length map.old.entries }
    requires room { length map.old.entries ≤ length tournament.old }
    requires ranked { AreRankedBut place map.old.entries tournament.old }
    ensures ranked { AreRankedBut place map.new.entries tournament.new }
    ensures room { length map.new.entries ≤ length tournament.new }
    ensures as_many { length tournament.new ≡ length tournament.old }
    ensures same { IsAlike K.eq map.old.entries map.new.entries }
{
    let Some((_, group)) = map.get_index(place) else {
        return;
    };
    if !group.is_idle() {
        return;
    }
    match map.swap_remove_index(place) {
        Some(_) => tournament.set(map.len(), None),
        None => unreachable!(),
    }
}

// Sets the rank of the group at a place, and lets the group go where nothing of it is left.
fn settle<K: Eq + Hash + Drop, W: Drop, S: BuildHasher>(
    map: &mut IndexMap<SharedKey<K>, ShareGroup<W>, S>,
    tournament: &mut Tournament,
    place: usize,
)
    requires within { place < length map.old.entries }
    requires room { length map.old.entries ≤ length tournament.old }
    requires ranked { AreRankedBut place map.old.entries tournament.old }
    ensures ranked { AreRanked map.new.entries tournament.new }
    ensures room { length map.new.entries ≤ length tournament.new }
    ensures same { IsAlike K.eq map.old.entries map.new.entries }
{
    drop_idle(map, tournament, place);
    let rank = rank_at(map, place);
    if rank.is_none() && tournament.is_vacant(place) {
        return;
    }
    tournament.set(place, rank);
}

impl<K: Eq + Hash + Drop, W: Drop, S: BuildHasher> Groups<K, W, S> {
    // No group. It takes no memory.
    pub(crate) fn new(alloc: Global, hasher: S) -> Self
        ensures { result ≡ [] }
    {
        Groups {
            map: IndexMap::with_hasher(alloc, hasher),
            tournament: Tournament::new(alloc),
            alloc,
        }
    }

    // The place of a key's group.
    pub(crate) fn find(&self, key: &SharedKey<K>) -> Option<usize>
        ensures some { IfSome result (λ place. StandsAt K.eq self.now place key.now) }
        ensures within { IfSome result (λ place. place < length self.now) }
        ensures none { IfNone result (lookup (K.eq key.now) self.now ≡ None) }
    {
        match self.map.get_full(key) {
            Some((place, _, _)) => Some(place),
            None => None,
        }
    }

    // The group at a place.
    pub(crate) fn at(&self, place: usize) -> &ShareGroup<W>
        requires { place < length self.now }
        ensures { (k : K) → StandsAt K.eq self.now place k → result.now ≡ share_in K.eq self.now k }
    {
        match self.map.get_index(place) {
            Some((_, group)) => group,
            None => unreachable!(),
        }
    }

    // Adds a group for a key that has none, or hands it back where there is no memory.
    pub(crate) fn add(
        &mut self,
        key: SharedKey<K>,
        group: ShareGroup<W>,
    ) -> Result<(), ShareGroup<W>>
        requires { lookup (K.eq key) self.old ≡ None }
        ensures ok { OnOk result (Sets K.eq self.old self.new key group) }
        ensures back { IfErr result (λ g. g ≡ group) }
        ensures err { OnErr result (self.new ≡ self.old) }
    {
        let place = self.map.len();
        let Ok(()) = make_place(&mut self.tournament, self.alloc, place) else {
            return Err(group);
        };
        match self.map.insert(key, group) {
            Ok(_) => {
                self.tournament.set(place, rank_at(&self.map, place));
                Ok(())
            }
            Err(failed) => Err(failed.value.1),
        }
    }

    // The rank of who is next.
    fn next(&self) -> Option<Rank>
        ensures some { IfSome result (λ r. Leads K.eq self.now r) }
        ensures none { IfNone result (waiting_in self.now ≡ 0) }
    {
        // The map tells that its keys differ.
        let _ = self.map.len();
        self.tournament.next()
    }

    // Admits who is next, and hands out its waker.
    pub(crate) fn admit(&mut self) -> W
        requires some { 0 < waiting_in self.old }
        requires fits { held_in self.old + 1 < 2 ^ 64 }
        requires apart { (k : K) (n : ℕ) → IsWaiting (share_in K.eq self.old k) n → map.get (share_in K.eq self.old k).admitted n ≡ None }
        ensures { Admits K.eq self.old self.new result }
    {
        let Some(rank) = self.next() else {
            unreachable!();
        };
        let group = self.map.get_index_mut(rank.group).unwrap();
        let waker = group.admit(rank.sequence);
        settle(&mut self.map, &mut self.tournament, rank.group);
        waker
    }
}

impl<K: Eq + Hash + Drop, W: Drop, S: BuildHasher> Groups<K, W, S> {
    // Adds a group for a key that has none, or hands it back where there is no memory.
    fn add_for(&mut self, key: &SharedKey<K>, group: ShareGroup<W>) -> Result<(), ShareGroup<W>>
        requires { lookup (K.eq key.now) self.old ≡ None }
        ensures ok { OnOk result (Sets K.eq self.old self.new key.now group) }
        ensures back { IfErr result (λ g. g ≡ group) }
        ensures err { OnErr result (self.new ≡ self.old) }
    {
        match key.share() {
            Ok(key) => self.add(key, group),
            Err(_) => Err(group),
        }
    }

    // A key has a permit more.
    pub(crate) fn take(&mut self, key: &SharedKey<K>) -> Result<(), NoMemory>
        requires { held_in self.old + 1 < 2 ^ 64 }
        ensures ok { OnOk result (Sets K.eq self.old self.new key.now (taken (share_in K.eq self.old key.now))) }
        ensures err { OnErr result (self.new ≡ self.old) }
    {
        match self.find(key) {
            Some(place) => {
                self.map.get_index_mut(place).unwrap().take();
                settle(&mut self.map, &mut self.tournament, place);
                Ok(())
            }
            None => {
                let mut group = ShareGroup::new(self.alloc);
                group.take();
                match self.add_for(key, group) {
                    Ok(()) => Ok(()),
                    Err(_) => Err(NoMemory),
                }
            }
        }
    }

    // A key has this weight.
    pub(crate) fn weigh(&mut self, key: &SharedKey<K>, weight: u64) -> Result<(), NoMemory>
        requires { 0 < weight }
        ensures ok { OnOk result (Sets K.eq self.old self.new key.now (weighing (share_in K.eq self.old key.now) weight)) }
        ensures err { OnErr result (self.new ≡ self.old) }
    {
        match self.find(key) {
            Some(place) => {
                self.map.get_index_mut(place).unwrap().weigh(weight);
                settle(&mut self.map, &mut self.tournament, place);
                Ok(())
            }
            None => {
                let mut group = ShareGroup::new(self.alloc);
                group.weigh(weight);
                match self.add_for(key, group) {
                    Ok(()) => Ok(()),
                    Err(_) => Err(NoMemory),
                }
            }
        }
    }

    // A number of a key begins to wait, or its waker comes back where there is no memory.
    pub(crate) fn wait(&mut self, key: &SharedKey<K>, number: u64, waker: W) -> Result<(), W>
        requires { map.get (share_in K.eq self.old key.now).waiting number ≡ None }
        ensures ok { OnOk result (Sets K.eq self.old self.new key.now (queued (share_in K.eq self.old key.now) number waker)) }
        ensures back { IfErr result (λ w. w ≡ waker) }
        ensures err { OnErr result (IsAlike K.eq self.old self.new) }
    {
        match self.find(key) {
            Some(place) => match self.map.get_index_mut(place).unwrap().queue(number, waker) {
                Ok(()) => {
                    settle(&mut self.map, &mut self.tournament, place);
                    Ok(())
                }
                Err(waker) => Err(waker),
            },
            None => self.wait_first(key, number, waker),
        }
    }

    // `wait` for a key that has no group.
    fn wait_first(&mut self, key: &SharedKey<K>, number: u64, waker: W) -> Result<(), W>
        requires { lookup (K.eq key.now) self.old ≡ None }
        ensures ok { OnOk result (Sets K.eq self.old self.new key.now (queued new_share number waker)) }
        ensures back { IfErr result (λ w. w ≡ waker) }
        ensures err { OnErr result (self.new ≡ self.old) }
    {
        let mut group = ShareGroup::new(self.alloc);
        match group.queue(number, waker) {
            Ok(()) => match self.add_for(key, group) {
                Ok(()) => Ok(()),
                Err(mut group) => Err(group.leave(number)),
            },
            Err(waker) => Err(waker),
        }
    }

    // A number that waits has this waker now; the rank of its key stays. It takes no memory.
    pub(crate) fn replace(&mut self, key: &SharedKey<K>, number: u64, waker: W)
        requires { IsWaiting (share_in K.eq self.old key.now) number }
        ensures { Sets K.eq self.old self.new key.now (queued (share_in K.eq self.old key.now) number waker) }
    {
        let Some(place) = self.find(key) else {
            unreachable!();
        };
        self.map
            .get_index_mut(place)
            .unwrap()
            .replace(number, waker);
    }

    // A number waits no more. It takes no memory.
    pub(crate) fn leave(&mut self, key: &SharedKey<K>, number: u64)
        requires { IsWaiting (share_in K.eq self.old key.now) number }
        ensures { Sets K.eq self.old self.new key.now (left (share_in K.eq self.old key.now) number) }
    {
        let Some(place) = self.find(key) else {
            unreachable!();
        };
        let _ = self.map.get_index_mut(place).unwrap().leave(number);
        settle(&mut self.map, &mut self.tournament, place);
    }

    // What was admitted is a living permit; the rank of its key stays. It takes no memory.
    pub(crate) fn ready(&mut self, key: &SharedKey<K>, number: u64)
        requires { IsAdmitted (share_in K.eq self.old key.now) number }
        ensures { Sets K.eq self.old self.new key.now (readied (share_in K.eq self.old key.now) number) }
    {
        let Some(place) = self.find(key) else {
            unreachable!();
        };
        self.map.get_index_mut(place).unwrap().ready(number);
    }

    // What was admitted is given up. It takes no memory.
    pub(crate) fn give_up(&mut self, key: &SharedKey<K>, number: u64)
        requires { IsAdmitted (share_in K.eq self.old key.now) number }
        ensures { Sets K.eq self.old self.new key.now (given_up (share_in K.eq self.old key.now) number) }
    {
        let Some(place) = self.find(key) else {
            unreachable!();
        };
        self.map.get_index_mut(place).unwrap().give_up(number);
        settle(&mut self.map, &mut self.tournament, place);
    }

    // A key has a permit less. It takes no memory.
    pub(crate) fn release(&mut self, key: &SharedKey<K>)
        requires { 0 < (share_in K.eq self.old key.now).living }
        ensures { Sets K.eq self.old self.new key.now (released (share_in K.eq self.old key.now)) }
    {
        let Some(place) = self.find(key) else {
            unreachable!();
        };
        self.map.get_index_mut(place).unwrap().release();
        settle(&mut self.map, &mut self.tournament, place);
    }
}

// Makes room for one more group in a tournament that has this many at the least.
fn make_place(tournament: &mut Tournament, alloc: Global, groups: usize) -> Result<(), NoMemory>
    requires { groups ≤ length tournament.old }
    ensures room { OnOk result (groups < length tournament.new) }
    ensures grows { length tournament.old ≤ length tournament.new }
    ensures kept { (k : ℕ) → get_or tournament.new k None ≡ get_or tournament.old k None }
{
    if groups < tournament.len() {
        return Ok(());
    }
    if groups > 1 << 60 {
        return Err(NoMemory);
    }
    tournament.grow(alloc, 2 * groups + 2)
}
