ghost use Rattle.std.specs.Prelude.{◌≡◌, ◌+◌, ◌<◌, ◌≤◌, ◌++◌, [], ◌∷◌, ℕ, None, length, OnOk, OnErr};
ghost use Rattle.mea_family.specs.Family.{is_pending};
ghost use Rattle.mea_task_core.specs.Machine.{woken, move};
ghost use Rattle.mea_task_core.specs.Sound.{times};
ghost use Rattle.mea_task_core.specs.Turns.{ComesToItsEnd, ComesToYield, ComesToAsk, ComesToPoll, ComesToGive};

use crate::executor::Executor;
use crate::phase::Phase;
use crate::run_queue::RunQueue;
use crate::task::Task;
use mea_base::NoMemory;
use mea_family::Answer;
use mea_sem::{SemEvent, SemHall};

impl Executor {
    // The first task of the run queue, if there is one, begins its turn.
    pub(crate) fn begin(&mut self)
        requires { self.old.running ≡ None }
        ensures { self.new ≡ move self.old }
    {
        if let Some(task) = self.queue.pop() {
            self.running = Some(task);
            self.polls += 1;
        }
    }

    // All steps of the task are over, and so is its turn.
    pub(crate) fn finish(&mut self, task: usize)
        requires { ComesToItsEnd self.old task }
        ensures { self.new ≡ move self.old }
    {
        self.tasks[task].end(Phase::Finished);
        self.running = None;
    }

    // The task goes to the end of the run queue, and its turn is over.
    pub(crate) fn yield_turn(&mut self, task: usize)
        requires { ComesToYield self.old task }
        ensures { self.new ≡ move self.old }
    {
        self.tasks[task].pass();
        self.queue.push(task);
        self.running = None;
    }

    // The task makes a future for the permits that it takes.
    pub(crate) fn ask(
        &mut self,
        task: usize,
        semaphore: usize,
        demand: usize,
    ) -> Result<(), NoMemory>
        requires { ComesToAsk self.old task semaphore demand }
        ensures ok { OnOk result (self.new ≡ move self.old) }
        ensures err { OnErr result (self.new ≡ self.old) }
    {
        let future = self.events;
        let event = SemEvent::Acqf(self.semaphores[semaphore], demand as u64);
        let Ok(_) = self.hall.act(future, &event) else {
            return Err(NoMemory);
        };
        self.events = future + 1;
        self.tasks[task].come_to(Phase::Asks(future));
        Ok(())
    }

    // The task polls its future with its own number as the waker. It waits, and its turn is over, or it has what it takes.
    pub(crate) fn poll(&mut self, task: usize, future: u64) -> Result<(), NoMemory>
        requires { ComesToPoll self.old task future }
        ensures ok { OnOk result (self.new ≡ move self.old) }
        ensures err { OnErr result (self.new ≡ self.old) }
    {
        let number = self.events;
        let event = SemEvent::Poll(future, task as u64);
        let Ok(answer) = self.hall.act(number, &event) else {
            return Err(NoMemory);
        };
        self.events = number + 1;
        if is_pending(answer) {
            self.tasks[task].come_to(Phase::Waits(future));
            self.running = None;
            Ok(())
        } else {
            self.tasks[task].pass();
            Ok(())
        }
    }

    // The task releases permits; whom that wakes goes to the end of the run queue. Where the release is refused, it has failed.
    pub(crate) fn give(&mut self, task: usize, semaphore: usize, count: usize)
        requires { ComesToGive self.old task semaphore count }
        ensures { self.new ≡ move self.old }
    {
        let number = self.events;
        let event = SemEvent::Release(self.semaphores[semaphore], count as u64);
        match self.hall.act(number, &event) {
            Ok(_) => {
                self.events = number + 1;
                wake_all(&mut self.hall, &mut self.tasks, &mut self.queue);
                self.tasks[task].pass();
            }
            Err(_) => {
                self.tasks[task].end(Phase::Failed);
                self.running = None;
            }
        }
    }
}

// Whether a future waits on.
fn is_pending(answer: Answer) -> bool
    ensures { result ≡ is_pending answer }
{
    matches!(answer, Answer::Pending)
}

// Takes the wakers that are ready: each is a task that is woken, and goes to the end of the run queue.
fn wake_all(hall: &mut SemHall, tasks: &mut Vec<Task>, queue: &mut RunQueue)
    requires tasks { (w : ℕ) → 1 ≤ times w hall.old.wakes → w < length tasks.old.items }
    requires room { length queue.old.tasks + length hall.old.wakes ≤ queue.old.room }
    ensures hall { hall.new ≡ record hall.old { wakes = [] } }
    ensures tasks { tasks.new.items ≡ woken tasks.old.items hall.old.wakes }
    ensures queue { queue.new ≡ record queue.old { tasks = queue.old.tasks ++ hall.old.wakes } }
{
    while let Some(waker) = hall.next_wake() {
        let task = waker as usize;
        tasks[task].wake();
        queue.push(task);
    }
}
