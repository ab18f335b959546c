use crate::reply::Reply;
use mea_base::NoMemory;
use mea_events::Event;
use mea_family::{Answer, Stop};
use mea_marks::Playing;
use std::alloc::Global;

/// A hall that answers each event as it is kept.
#[derive(Drop)]
pub struct Kept {
    replies: Vec<Reply>,
    // The free permits of semaphore 0 after the last event.
    free: Option<u64>,
}

impl Kept {
    /// Nothing is kept.
    pub fn new(alloc: Global) -> Kept {
        Kept {
            replies: Vec::new(alloc),
            free: None,
        }
    }

    /// Keeps one reply more.
    pub fn add(&mut self, reply: Reply) -> Result<(), NoMemory> {
        self.replies.push(reply)?;
        Ok(())
    }
}

impl Playing for Kept {
    ghost use Rattle.std.specs.Prelude.{List};
    ghost use Rattle.mea_draw_pictures.specs.declared.reply.Reply.{Reply as Told};
    ghost use Rattle.mea_draw_pictures.specs.Kept.{kept_steps};

    ghost State = { List Told };

    ghost state = { λ k. k.replies.items };

    ghost steps = { kept_steps };

    ghost stands_at = { λ k n. Unit {0} };

    fn play(&mut self, number: u64, _event: &Event, wakes: &mut Vec<u64>) -> Result<Answer, Stop> {
        let Some(reply) = self.replies.get(number as usize) else {
            return Err(Stop::NoMemory);
        };
        self.free = reply.free;
        wakes.clear();
        match wakes.extend_from_slice(reply.wakes.as_slice()) {
            Ok(()) => Ok(reply.answer),
            Err(_) => Err(Stop::NoMemory),
        }
    }

    fn free_permits(&self, semaphore: u64) -> Option<u64> {
        if semaphore == 0 { self.free } else { None }
    }
}
