ghost use Rattle.std.specs.Prelude.{◌≡◌, ◌+◌, ◌≤◌, ◌++◌, length, take, IfOk, OnOk};
ghost use Rattle.mea_pool_run.specs.PoolByName.{begun, outcome};
ghost use Rattle.mea_pool_run.specs.Kept.{pool_by_name, Stands, AreBelow};
ghost use Rattle.mea_pool_run.specs.Reply.{text_of};

use crate::event::PoolEvent;
use crate::lines::event_of_line;
use crate::named_pool::NamedPool;
use crate::reply::put_pool_reply;
use mea_base::NoMemory;
use mea_family::Stop;
use mea_script::Machine;
use std::alloc::Global;

/// A pool as the machine of its scripts.
#[derive(Drop)]
pub struct PoolMachine {
    pub(crate) named: NamedPool,
    // The wakers of the last event.
    wakes: Vec<u64>,
}

impl PoolMachine {
    /// A pool of so many numbers, at which nothing was played.
    pub fn new(alloc: Global, size: usize) -> Result<PoolMachine, NoMemory>
        ensures state { IfOk result (λ p. pool_by_name p.named.pool p.named.things ≡ begun size) }
        ensures stands { IfOk result (λ p. Stands p.named.pool p.named.things × AreBelow p.named.things 0) }
    {
        let named = NamedPool::new(alloc, size)?;
        Ok(PoolMachine {
            named,
            wakes: Vec::new(alloc),
        })
    }

    // Plays an event and puts its reply.
    fn play_event(
        &mut self,
        number: u64,
        event: &PoolEvent,
        text: &mut Vec<u8>,
    ) -> Result<(), NoMemory>
        requires stands { Stands self.old.named.pool self.old.named.things }
        requires below { AreBelow self.old.named.things number }
        ensures next { OnOk result (pool_by_name self.new.named.pool self.new.named.things ≡ (outcome (pool_by_name self.old.named.pool self.old.named.things) number event.now).pool) }
        ensures stands { OnOk result (Stands self.new.named.pool self.new.named.things) }
        ensures below { OnOk result (AreBelow self.new.named.things (number + 1)) }
        ensures text { OnOk result (text.new.items ≡ text.old.items ++ text_of (outcome (pool_by_name self.old.named.pool self.old.named.things) number event.now).reply (outcome (pool_by_name self.old.named.pool self.old.named.things) number event.now).wakes) }
        ensures kept { take (length text.old.items) text.new.items ≡ text.old.items }
    {
        let reply = self.named.play(number, *event)?;
        self.named.take_wakes(&mut self.wakes)?;
        put_pool_reply(text, &reply, self.wakes.as_slice())
    }
}

impl Machine for PoolMachine {
    type Event = PoolEvent;

    ghost use Rattle.mea_pool_run.specs.PoolByName.{PoolByName};
    ghost use Rattle.mea_pool_run.specs.Kept.{pool_by_name, Stands, AreBelow};
    ghost use Rattle.mea_pool_run.specs.Script.{pool_rules};

    ghost State = { PoolByName };

    ghost state = { λ p. pool_by_name p.named.pool p.named.things };

    ghost rules = { pool_rules };

    ghost stands_at = { λ p n. Stands p.named.pool p.named.things × AreBelow p.named.things n };

    fn event_of_line(&self, line: &[u8]) -> Option<PoolEvent> {
        event_of_line(line)
    }

    fn play(&mut self, number: u64, event: &PoolEvent, text: &mut Vec<u8>) -> Result<(), Stop> {
        match self.play_event(number, event, text) {
            Ok(()) => Ok(()),
            Err(_) => Err(Stop::NoMemory),
        }
    }

    fn finish(&mut self, _lines: u64, _text: &mut Vec<u8>) -> Result<(), NoMemory> {
        Ok(())
    }
}
