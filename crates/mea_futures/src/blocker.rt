ghost use Rattle.std.specs.Prelude.{◌≡◌, IfOk, MatchOption};

use crate::bell::Bell;
use crate::blocking::refusal;
use crate::waiting::wait_by;
use futures::Future;
use futures::executor::block_on_queue;
use futures::future::{Either, select};
use futures::task::{Doorbell, Queue};
use mea_wait::Waits;
use std::alloc::AllocGlobal;
use std::io;
use std::random::RandomSource;
use std::sync::Wait;

/// What a thread that waits again and again makes once: the executor and the bell that `block` makes for each wait.
#[derive(Drop)]
pub struct Blocker {
    queue: Queue,
    bell: Bell,
}

impl Blocker {
    /// One for this thread. It takes memory, and asks the system for random bytes.
    pub fn new<R: RandomSource + AllocGlobal>(rt: &R) -> io::Result<Self> {
        let bell = Bell::new(rt.alloc())?;
        Ok(Blocker {
            queue: Queue::new(rt, Doorbell::parking())?,
            bell,
        })
    }

    /// `block`, by this executor and this bell.
    pub fn block<R: Wait, F: Waits<Bell, O>, O>(&mut self, rt: &R, of: F) -> io::Result<O>
        requires { F.can_poll of }
        ensures { IfOk result (λ output. F.gives of output) }
    {
        match block_on_queue(rt, &self.queue, wait_by(rt, &self.bell, of)?)? {
            Ok(output) => Ok(output),
            Err(fault) => Err(refusal(fault)),
        }
    }

    /// `block_before`, by this executor and this bell.
    pub fn block_before<R: Wait, F: Waits<Bell, O>, O, D: Future<Output = ()>>(
        &mut self,
        rt: &R,
        of: F,
        deadline: D,
    ) -> io::Result<Option<O>>
        requires wait { F.can_poll of }
        requires deadline { D.can_poll deadline }
        ensures { IfOk result (λ s. MatchOption s (D.gives deadline tt) (λ output. F.gives of output)) }
    {
        let either = select(wait_by(rt, &self.bell, of)?, deadline);
        match block_on_queue(rt, &self.queue, either)? {
            Either::Left((answer, _deadline)) => match answer {
                Ok(output) => Ok(Some(output)),
                Err(fault) => Err(refusal(fault)),
            },
            // The wait is dropped here, and so ended.
            Either::Right(((), _wait)) => Ok(None),
        }
    }
}
