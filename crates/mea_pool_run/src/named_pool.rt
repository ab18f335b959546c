ghost use Rattle.std.specs.Prelude.{◌≡◌, ◌+◌, ℕ, [], Some, IfOk, OnOk, length};
ghost use Rattle.std.specs.FinMap.{get};
ghost use Rattle.mea_pool_core.specs.declared.drain_wait.DrainWait.{DrainWait as Awaiting};
ghost use Rattle.mea_pool_core.specs.declared.lease_wait.LeaseWait.{LeaseWait as Asking};
ghost use Rattle.mea_pool_core.specs.Shelf.{slots_below};
ghost use Rattle.mea_pool_run.specs.PoolByName.{begun, made, poll_of, use_of, back_of, end_of, drained, outcome};
ghost use Rattle.mea_pool_run.specs.Kept.{pool_by_name, live_of, wakers_of, Stands, AreBelow, Goes, IsNew};

use crate::event::PoolEvent;
use crate::reply::PoolReply;
use crate::thing::Thing;
use mea_base::{NoMemory, Poll};
use mea_by_name::{ByName, NamedWaker};
use mea_family::Answer;
use mea_pool_core::{DrainWait, LeasePoll, LeaseWait, PoolCore};
use std::alloc::Global;

/// A pool of numbers, and what waits and is lent there, by name. A waker tells whose it is.
#[derive(Drop)]
pub struct NamedPool {
    pub(crate) pool: PoolCore<u64, NamedWaker>,
    pub(crate) things: ByName<Thing>,
}

impl NamedPool {
    /// A pool of so many numbers, each its own slot, and no names.
    pub fn new(alloc: Global, size: usize) -> Result<NamedPool, NoMemory>
        ensures state { IfOk result (λ h. pool_by_name h.pool h.things ≡ begun size) }
        ensures stands { IfOk result (λ h. Stands h.pool h.things) }
        ensures below { IfOk result (λ h. AreBelow h.things 0) }
    {
        let resources = numbered(alloc, size)?;
        match PoolCore::new(alloc, resources) {
            Ok(pool) => Ok(NamedPool {
                pool,
                things: ByName::new(alloc),
            }),
            Err(_) => Err(NoMemory),
        }
    }

    /// Plays the event of the line of this number, which names what it makes.
    #[tactic(auto, unfolding(crate::specs::PoolByName::outcome))]
    pub fn play(&mut self, number: u64, event: PoolEvent) -> Result<PoolReply, NoMemory>
        requires stands { Stands self.old.pool self.old.things }
        requires below { AreBelow self.old.things number }
        ensures goes { IfOk result (λ reply. Goes (outcome (pool_by_name self.old.pool self.old.things) number event) self.new.pool self.new.things reply) }
        ensures below { OnOk result (AreBelow self.new.things (number + 1)) }
    {
        match event {
            PoolEvent::Ask => self.make(number, Thing::Ask(LeaseWait::New)),
            PoolEvent::Wait => self.make(number, Thing::Wait(DrainWait::New)),
            PoolEvent::Poll(name, waker) => self.poll(number, name, waker),
            PoolEvent::Use(name, value) => Ok(self.set(name, value)),
            PoolEvent::Back(name) => Ok(self.put_back(name)),
            PoolEvent::End(name) => Ok(self.end(name)),
            PoolEvent::Drain => Ok(self.drain()),
            PoolEvent::Idle => Ok(self.idle()),
        }
    }

    // Makes a wait that has this number as its name.
    fn make(&mut self, number: u64, thing: Thing) -> Result<PoolReply, NoMemory>
        requires stands { Stands self.old.pool self.old.things }
        requires below { AreBelow self.old.things number }
        requires new { IsNew thing }
        ensures goes { IfOk result (λ reply. Goes (made (pool_by_name self.old.pool self.old.things) number (live_of self.old.pool.granted thing)) self.new.pool self.new.things reply) }
        ensures below { OnOk result (AreBelow self.new.things (number + 1)) }
    {
        self.things.insert(number, thing)?;
        Ok(PoolReply::Told(Answer::Made))
    }

    // Polls the wait of this name, if it is one. It is taken out where it is over. A lease that it gets has this number as its
    // name.
    fn poll(&mut self, number: u64, name: u64, waker: u64) -> Result<PoolReply, NoMemory>
        requires stands { Stands self.old.pool self.old.things }
        requires below { AreBelow self.old.things number }
        ensures goes { IfOk result (λ reply. Goes (poll_of (get (pool_by_name self.old.pool self.old.things).things name) (pool_by_name self.old.pool self.old.things) number name waker) self.new.pool self.new.things reply) }
        ensures below { OnOk result (AreBelow self.new.things (number + 1)) }
    {
        let named = NamedWaker { name, waker };
        let Some(thing) = self.things.get_mut(name) else {
            return Ok(PoolReply::Unknown);
        };
        match thing {
            Thing::Ask(wait) => match self.pool.poll_lease(wait, named) {
                Ok(LeasePoll::Got(lease)) => {
                    let reply = PoolReply::Leased(lease.slot() as u64, *lease.resource());
                    let _ = self.things.remove(name);
                    self.things.insert(number, Thing::Held(lease))?;
                    Ok(reply)
                }
                Ok(LeasePoll::Pending) => Ok(PoolReply::Told(Answer::Pending)),
                Ok(LeasePoll::Closed) => {
                    let _ = self.things.remove(name);
                    Ok(PoolReply::Told(Answer::Gone))
                }
                Err(_) => Err(NoMemory),
            },
            Thing::Wait(wait) => match self.pool.poll_drained(wait, named) {
                Ok(Poll::Ready(())) => {
                    let _ = self.things.remove(name);
                    Ok(PoolReply::Told(Answer::Ready))
                }
                Ok(Poll::Pending) => Ok(PoolReply::Told(Answer::Pending)),
                Err(_) => Err(NoMemory),
            },
            Thing::Held(_) => Ok(PoolReply::Unknown),
        }
    }

    // The resource of the lease of this name, if it is one, is this value now. It takes no memory.
    fn set(&mut self, name: u64, value: u64) -> PoolReply
        requires stands { Stands self.old.pool self.old.things }
        ensures goes { Goes (use_of (get (pool_by_name self.old.pool self.old.things).things name) (pool_by_name self.old.pool self.old.things) name value) self.new.pool self.new.things result }
        ensures below { (n : ℕ) → AreBelow self.old.things n → AreBelow self.new.things n }
    {
        let Some(thing) = self.things.get_mut(name) else {
            return PoolReply::Unknown;
        };
        match thing {
            Thing::Held(lease) => {
                *lease.resource_mut() = value;
                PoolReply::Told(Answer::Done)
            }
            Thing::Ask(_) => PoolReply::Unknown,
            Thing::Wait(_) => PoolReply::Unknown,
        }
    }

    // Puts the lease of this name back, if it is one. It takes no memory.
    fn put_back(&mut self, name: u64) -> PoolReply
        requires stands { Stands self.old.pool self.old.things }
        ensures goes { Goes (back_of (get (pool_by_name self.old.pool self.old.things).things name) (pool_by_name self.old.pool self.old.things) name) self.new.pool self.new.things result }
        ensures below { (n : ℕ) → AreBelow self.old.things n → AreBelow self.new.things n }
    {
        match self.things.get(name) {
            Some(Thing::Held(_)) => self.put_lease_back(name),
            Some(Thing::Ask(_)) => PoolReply::Unknown,
            Some(Thing::Wait(_)) => PoolReply::Unknown,
            None => PoolReply::Unknown,
        }
    }

    // The same of what is known to be a lease.
    fn put_lease_back(&mut self, name: u64) -> PoolReply
        requires stands { Stands self.old.pool self.old.things }
        requires out { (lease : ℕ × ℕ) × (get self.old.things name ≡ Some (Thing.Held lease)) }
        ensures goes { Goes (back_of (get (pool_by_name self.old.pool self.old.things).things name) (pool_by_name self.old.pool self.old.things) name) self.new.pool self.new.things result }
        ensures below { (n : ℕ) → AreBelow self.old.things n → AreBelow self.new.things n }
    {
        let Thing::Held(lease) = self.things.remove(name) else {
            unreachable!();
        };
        self.pool.put_back(lease);
        PoolReply::Told(Answer::Done)
    }

    // Ends the wait of this name, if it is one. It takes no memory.
    fn end(&mut self, name: u64) -> PoolReply
        requires stands { Stands self.old.pool self.old.things }
        ensures goes { Goes (end_of (get (pool_by_name self.old.pool self.old.things).things name) (pool_by_name self.old.pool self.old.things) name) self.new.pool self.new.things result }
        ensures below { (n : ℕ) → AreBelow self.old.things n → AreBelow self.new.things n }
    {
        match self.things.get(name) {
            Some(Thing::Ask(_)) => self.end_lease(name),
            Some(Thing::Wait(_)) => self.end_drain(name),
            Some(Thing::Held(_)) => PoolReply::Unknown,
            None => PoolReply::Unknown,
        }
    }

    // Ends what is known to be a wait for a lease.
    fn end_lease(&mut self, name: u64) -> PoolReply
        requires stands { Stands self.old.pool self.old.things }
        requires asks { (wait : Asking) × (get self.old.things name ≡ Some (Thing.Ask wait)) }
        ensures goes { Goes (end_of (get (pool_by_name self.old.pool self.old.things).things name) (pool_by_name self.old.pool self.old.things) name) self.new.pool self.new.things result }
        ensures below { (n : ℕ) → AreBelow self.old.things n → AreBelow self.new.things n }
    {
        let Thing::Ask(wait) = self.things.remove(name) else {
            unreachable!();
        };
        self.pool.cancel_lease(wait);
        PoolReply::Told(Answer::Done)
    }

    // Ends what is known to be a wait for the end of the drain.
    fn end_drain(&mut self, name: u64) -> PoolReply
        requires stands { Stands self.old.pool self.old.things }
        requires awaits { (wait : Awaiting) × (get self.old.things name ≡ Some (Thing.Wait wait)) }
        ensures goes { Goes (end_of (get (pool_by_name self.old.pool self.old.things).things name) (pool_by_name self.old.pool self.old.things) name) self.new.pool self.new.things result }
        ensures below { (n : ℕ) → AreBelow self.old.things n → AreBelow self.new.things n }
    {
        let Thing::Wait(wait) = self.things.remove(name) else {
            unreachable!();
        };
        self.pool.end_drain(wait);
        PoolReply::Told(Answer::Done)
    }

    // No more is lent. It takes no memory.
    fn drain(&mut self) -> PoolReply
        requires stands { Stands self.old.pool self.old.things }
        ensures goes { Goes (drained (pool_by_name self.old.pool self.old.things)) self.new.pool self.new.things result }
        ensures same { self.new.things ≡ self.old.things }
    {
        self.pool.drain();
        PoolReply::Told(Answer::Done)
    }

    // Tells how many resources are on the shelf. It takes no memory.
    fn idle(&self) -> PoolReply
        ensures { result ≡ PoolReply.Told (Answer.Count (length self.now.pool.shelf)) }
    {
        PoolReply::Told(Answer::Count(self.pool.idle() as u64))
    }

    /// Takes the wakers that are ready, in their order, in the place of those of an earlier line.
    pub fn take_wakes(&mut self, wakes: &mut Vec<u64>) -> Result<(), NoMemory>
        ensures things { self.new.things ≡ self.old.things }
        ensures pool { OnOk result (self.new.pool ≡ record self.old.pool { wakes = [] }) }
        ensures wakes { OnOk result (wakes.new.items ≡ wakers_of self.old.pool.wakes) }
    {
        wakes.clear();
        while let Some(named) = self.pool.next_wake() {
            match wakes.push(named.waker) {
                Ok(()) => {}
                Err(_) => return Err(NoMemory),
            }
        }
        Ok(())
    }
}

// The numbers below this one, in their order.
fn numbered(alloc: Global, size: usize) -> Result<Vec<u64>, NoMemory>
    ensures { IfOk result (λ numbers. numbers.items ≡ slots_below size) }
{
    let mut numbers = Vec::with_capacity(alloc, size)?;
    for number in 0..size {
        numbers.push_reserved(number as u64);
    }
    Ok(numbers)
}
