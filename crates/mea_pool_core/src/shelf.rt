ghost use Rattle.std.specs.Prelude.{◌≡◌, ◌+◌, ◌<◌, ◌≤◌, ◌++◌, ◌∷◌, [], length, slice_set, true, false, IfOk, IfErr};
ghost use Rattle.std.specs.VecDeque.{deque_capacity, deque_len};
ghost use Rattle.std.specs.Vec.{vec_capacity, vec_len};
ghost use Rattle.mea_pool_core.specs.Shelf.{is_lent, lent_count, slots_below, none_lent, with_slots, resources_of, Lends};

use crate::lease::Lease;
use mea_base::NoMemory;
use std::alloc::Global;
use std::collections::VecDeque;
use std::marker::Model;

// Resources in the order in which they are lent, each with its slot, and a mark for each slot that is lent. Room for all
// of them is kept, so that nothing but `new` takes memory.
#[derive(Drop)]
pub(crate) struct Shelf<R> {
    // The slots of the resources, in the same order.
    slots: VecDeque<usize>,
    resources: VecDeque<R>,
    lent: Vec<bool>,
}

impl<R> Model for Shelf<R> {
    ghost use Rattle.std.specs.Prelude.{◌≡◌, ◌+◌, ◌≤◌, length, zip};
    ghost use Rattle.std.specs.VecDeque.{deque_capacity};
    ghost use Rattle.mea_pool_core.specs.Shelf.{Shelf, shelf_code, lent_count, StandOnce};

    ghost Value = { Shelf R };

    ghost coded = { shelf_code R.code };

    ghost view = { λ s. record { idle = zip s.slots.items s.resources.items; lent = s.lent.items } };

    ghost invariant = { λ s. record {
      paired : length s.slots.items ≡ length s.resources.items;
      once : StandOnce s.slots.items s.lent.items;
      counted : length s.slots.items + lent_count s.lent.items ≡ length s.lent.items;
      slots_room : length s.lent.items ≤ deque_capacity s.slots;
      resources_room : length s.lent.items ≤ deque_capacity s.resources;
    } };
}

// The slots below a number, in their order, and as many marks of slots that are not lent.
fn marks(alloc: Global, all: usize) -> Result<(VecDeque<usize>, Vec<bool>), NoMemory>
    ensures slots { IfOk result (λ p. p.0.items ≡ slots_below all) }
    ensures room { IfOk result (λ p. all ≤ deque_capacity p.0) }
    ensures lent { IfOk result (λ p. p.1.items ≡ none_lent all) }
{
    let mut slots = VecDeque::with_capacity(alloc, all)?;
    let mut lent = Vec::with_capacity(alloc, all)?;
    for slot in 0..all {
        slots.push_back_reserved(slot);
        lent.push_reserved(false);
    }
    Ok((slots, lent))
}

impl<R> Shelf<R> {
    // A shelf with all of these resources, in their order. Where there is no memory they come back.
    pub(crate) fn new(alloc: Global, resources: Vec<R>) -> Result<Self, (Vec<R>, NoMemory)>
        ensures idle { IfOk result (λ s. s.idle ≡ with_slots resources.items) }
        ensures lent { IfOk result (λ s. s.lent ≡ none_lent (length resources.items)) }
        ensures count { IfOk result (λ s. lent_count s.lent ≡ 0) }
        ensures size { IfOk result (λ s. length s.lent ≡ length resources.items) }
        ensures err { IfErr result (λ e. e.0 ≡ resources) }
    {
        let Ok((slots, lent)) = marks(alloc, resources.len()) else {
            return Err((resources, NoMemory));
        };
        Ok(Shelf {
            slots,
            resources: VecDeque::from_vec(resources),
            lent,
        })
    }

    // How many resources are on the shelf. It takes no memory.
    pub(crate) fn len(&self) -> usize
        ensures count { result ≡ length self.now.idle }
        ensures all { length self.now.idle + lent_count self.now.lent ≡ length self.now.lent }
    {
        self.slots.len()
    }

    // How many slots there are. It takes no memory.
    pub(crate) fn size(&self) -> usize
        ensures { result ≡ length self.now.lent }
    {
        self.lent.len()
    }

    // Whether a slot is lent. It takes no memory.
    pub(crate) fn is_lent(&self, slot: usize) -> bool
        ensures { result ≡ is_lent self.now.lent slot }
    {
        slot < self.lent.len() && self.lent[slot]
    }

    // Lends the first resource. It takes no memory.
    pub(crate) fn lend(&mut self) -> Lease<R>
        requires { lent_count self.old.lent < length self.old.lent }
        ensures { Lends self.old result self.new }
    {
        let Some(slot) = self.slots.pop_front() else {
            unreachable!();
        };
        let Some(resource) = self.resources.pop_front() else {
            unreachable!();
        };
        self.lent[slot] = true;
        Lease { slot, resource }
    }

    // Puts a resource that was lent last on the shelf. It takes no memory.
    pub(crate) fn put_back(&mut self, lease: Lease<R>)
        requires { is_lent self.old.lent lease.0 ≡ true }
        ensures is { self.new ≡ record { idle = self.old.idle ++ lease ∷ []; lent = slice_set self.old.lent lease.0 false } }
        ensures fewer { lent_count self.new.lent + 1 ≡ lent_count self.old.lent }
    {
        let Lease { slot, resource } = lease;
        self.slots.push_back_reserved(slot);
        self.resources.push_back_reserved(resource);
        self.lent[slot] = false;
    }

    // The resources that are on the shelf, in its order. It takes no memory.
    pub(crate) fn into_resources(self) -> Vec<R>
        ensures { result.items ≡ resources_of self.idle }
    {
        let Shelf { resources, .. } = self;
        resources.into_vec()
    }
}
