ghost use Rattle.std.specs.Prelude.{◌≡◌, ◌+◌, ◌*◌, ◌^◌, ◌<◌, ◌≤◌, ◌++◌, [], ◌∷◌, ℕ, Some, None, length, slice_get, not, IfOk, IfErr, OnOk, OnErr, IfSome, IfNone};
ghost use Rattle.std.specs.List.{position};
ghost use Rattle.mea_sem_model.specs.Step.{ledger_of};
ghost use Rattle.mea_task_core.specs.Machine.{Machine, new_machine, name_of, is_at_rest, IsAtRest, move, moves};
ghost use Rattle.mea_task_core.specs.Bounds.{takes_and_yields, AddsNothing};
ghost use Rattle.mea_task_core.specs.Sound.{IsSound};
ghost use Rattle.mea_task_core.specs.Settled.{run_out, AreSettled, state_at};
ghost use Rattle.mea_task_core.specs.Adding.{with_semaphore, with_new_task, is_known, IsFault, IsAllowed};

use crate::faults::AddFault;
use crate::run_queue::RunQueue;
use crate::state::TaskState;
use crate::step::Step;
use crate::task::Task;
use mea_base::NoMemory;
use mea_family::{Answer, Ledger};
use mea_sem::{SemEvent, SemHall};
use std::alloc::Global;
use std::marker::Model;

// The greatest number of tasks and steps.
const GREATEST_SIZE: usize = 1 << 60;

/// Runs tasks on semaphores by turns, one task at a time.
///
/// In a turn a task plays its steps until it waits, yields, fails or is finished. It waits with a future of the hall, whose
/// waker is the task's number: whom an event wakes goes to the end of the run queue at once.
pub struct Executor {
    pub(crate) hall: SemHall,
    // The events played so far, and so the number of the next.
    pub(crate) events: u64,
    // The names of the semaphores in the hall, by place.
    pub(crate) semaphores: Vec<u64>,
    pub(crate) tasks: Vec<Task>,
    pub(crate) queue: RunQueue,
    // The task whose turn is on. Between two runs there is one where the last run found no memory.
    pub(crate) running: Option<usize>,
    pub(crate) polls: u64,
    // The tasks and steps added.
    pub(crate) added: usize,
    // The tasks, takes and yields added.
    pub(crate) allowance: usize,
}

impl Model for Executor {
    ghost use Rattle.mea_task_core.specs.Machine.{Machine, machine_code};

    ghost Value = { Machine };

    ghost coded = { machine_code };

    ghost use Rattle.mea_task_core.specs.Kept.{IsKept};

    ghost view = { λ e. record { hall = e.hall.hall; events = e.events; semaphores = e.semaphores.items; tasks = e.tasks.items; queue = e.queue.tasks; running = e.running; polls = e.polls; added = e.added; allowance = e.allowance } };

    ghost invariant = { λ e. IsKept (record { hall = e.hall.hall; events = e.events; semaphores = e.semaphores.items; tasks = e.tasks.items; queue = e.queue.tasks; running = e.running; polls = e.polls; added = e.added; allowance = e.allowance }) e.hall e.queue.room };
}

// Written out: a derived one is proved anew in each crate that hands a value of this type to a generic function.
impl Drop for Executor {
    fn drop(self) {
        let Executor {
            hall: _,
            events: _,
            semaphores: _,
            tasks: _,
            queue: _,
            running: _,
            polls: _,
            added: _,
            allowance: _,
        } = self;
    }
}

impl Executor {
    /// No semaphore and no task. It takes no memory.
    pub fn new(alloc: Global) -> Executor
        ensures { result ≡ new_machine }
    {
        Executor {
            hall: SemHall::new(alloc),
            events: 0,
            semaphores: Vec::new(alloc),
            tasks: Vec::new(alloc),
            queue: RunQueue::new(alloc),
            running: None,
            polls: 0,
            added: 0,
            allowance: 0,
        }
    }

    /// The events played so far.
    pub fn events(&self) -> u64
        ensures { result ≡ self.now.events }
    {
        self.events
    }

    /// How many semaphores there are.
    pub fn semaphores(&self) -> usize
        ensures { result ≡ length self.now.semaphores }
    {
        self.semaphores.len()
    }

    /// How many tasks there are.
    pub fn tasks(&self) -> usize
        ensures { result ≡ length self.now.tasks }
    {
        self.tasks.len()
    }

    /// The turns begun so far: at most one for each task, each take and each yield that was added.
    pub fn polls(&self) -> u64
        ensures told { result ≡ self.now.polls }
        ensures few { result ≤ self.now.allowance }
    {
        self.polls
    }

    /// What has become of a task.
    pub fn state(&self, task: usize) -> TaskState
        requires { task < length self.now.tasks }
        ensures { result ≡ state_at (slice_get self.now.tasks task) }
    {
        self.tasks[task].state()
    }

    /// Makes a semaphore, and answers its place. On an error nothing has changed.
    pub fn add_semaphore(&mut self, permits: usize) -> Result<usize, NoMemory>
        requires { self.old.events < 2 ^ 62 }
        ensures place { IfOk result (λ place. place ≡ length self.old.semaphores) }
        ensures ok { OnOk result (self.new ≡ with_semaphore self.old permits) }
        ensures err { OnErr result (self.new ≡ self.old) }
    {
        self.semaphores.reserve(1)?;
        let number = self.events;
        let Ok(_) = self.hall.act(number, &SemEvent::New(permits as u64)) else {
            return Err(NoMemory);
        };
        self.events = number + 1;
        let place = self.semaphores.len();
        self.semaphores.push_reserved(number);
        Ok(place)
    }

    /// Adds a task, which goes to the end of the run queue, and answers its number. On an error nothing has changed.
    pub fn add_task(&mut self, steps: Vec<Step>) -> Result<usize, AddFault>
        ensures number { IfOk result (λ task. task ≡ length self.old.tasks) }
        ensures ok { OnOk result (self.new ≡ with_new_task self.old steps.items) }
        ensures allowed { OnOk result (IsAllowed self.old steps.items) }
        ensures fault { IfErr result (λ fault. IsFault self.old steps.items fault) }
        ensures err { OnErr result (self.new ≡ self.old) }
    {
        if let Some(step) = first_unknown(steps.as_slice(), self.semaphores.len()) {
            return Err(AddFault::Unknown { step, steps });
        }
        let Some(size) = size_with(self.added, steps.len()) else {
            return Err(AddFault::TooMany(steps));
        };
        let turns = takes_and_yields(steps.as_slice()) + 1;
        let task = self.tasks.len();
        let Ok(()) = self.tasks.reserve(1) else {
            return Err(AddFault::NoMemory(steps));
        };
        let Ok(()) = self.queue.reserve(task + 1) else {
            return Err(AddFault::NoMemory(steps));
        };
        self.tasks.push_reserved(Task::new(steps));
        self.queue.push(task);
        self.added = size;
        self.allowance += turns;
        Ok(task)
    }

    /// Runs until no turn is on and the run queue is empty. Where an event finds no memory it was not played, and the next run
    /// goes on there. It plays at most four events for each task and step that was added, and one more.
    pub fn run(&mut self) -> Result<(), NoMemory>
        ensures ended { OnOk result (self.new ≡ run_out self.old) }
        ensures rests { OnOk result (IsAtRest self.new) }
        ensures settled { OnOk result (AreSettled self.new) }
        ensures moved { OnErr result ((n : ℕ) × (self.new ≡ moves n self.old)) }
        ensures goes_on { OnErr result (run_out self.new ≡ run_out self.old) }
        ensures few { self.new.polls ≤ self.old.allowance }
        ensures events { self.new.events ≤ self.old.events + (4 * self.old.added + 1) }
        ensures adds { AddsNothing self.old self.new }
    {
        let mut is_over = self.is_at_rest();
        while !is_over {
            self.go()?;
            is_over = self.is_at_rest();
        }
        Ok(())
    }

    /// The account of a semaphore. It takes no memory.
    pub fn ledger(&mut self, semaphore: usize) -> Ledger
        requires there { semaphore < length self.old.semaphores }
        requires few { self.old.events < 2 ^ 62 }
        ensures told { result ≡ ledger_of self.old.hall (name_of self.old semaphore) }
        ensures counted { self.new ≡ record self.old { events = self.old.events + 1 } }
    {
        let number = self.events;
        let name = self.semaphores[semaphore];
        let answer = self.hall.act(number, &SemEvent::Ledger(name));
        self.events = number + 1;
        match answer {
            Ok(Answer::Account(ledger)) => ledger,
            _ => unreachable!(),
        }
    }

    // Whether no turn is on and the run queue is empty.
    fn is_at_rest(&self) -> bool
        ensures told { result ≡ is_at_rest self.now }
        ensures sound { IsSound self.now }
    {
        self.running.is_none() && self.queue.is_empty()
    }

    // One move: the task whose turn is on plays the next event of its steps, or the next turn begins.
    fn go(&mut self) -> Result<(), NoMemory>
        ensures ok { OnOk result (self.new ≡ move self.old) }
        ensures err { OnErr result (self.new ≡ self.old) }
    {
        let Some(task) = self.running else {
            self.begin();
            return Ok(());
        };
        match self.tasks[task].next() {
            None => self.finish(task),
            Some(Step::Take(semaphore, demand)) => match self.tasks[task].future() {
                Some(future) => return self.poll(task, future),
                None => return self.ask(task, semaphore, demand),
            },
            Some(Step::Give(semaphore, count)) => self.give(task, semaphore, count),
            Some(Step::Yield) => self.yield_turn(task),
        }
        Ok(())
    }
}

// The first step that means a semaphore which is not among so many.
fn first_unknown(steps: &[Step], count: usize) -> Option<usize>
    ensures { result ≡ position (λ s. not (is_known count s)) steps.now }
{
    steps.iter().position(|step| !step.is_known(count))
}

// How many of the steps are a take or a yield.
fn takes_and_yields(steps: &[Step]) -> usize
    ensures { result ≡ takes_and_yields steps.now }
{
    steps.iter().filter(|step| step.may_rest()).count()
}

// The tasks and steps added, with one more task of so many steps, where they are not too many.
fn size_with(size: usize, steps: usize) -> Option<usize>
    requires { size ≤ 2 ^ 60 }
    ensures some { IfSome result (λ all. (all ≡ size + (steps + 1)) × (all ≤ 2 ^ 60)) }
    ensures none { IfNone result (2 ^ 60 < size + (steps + 1)) }
{
    let most = GREATEST_SIZE - size;
    if steps < most {
        Some(size + steps + 1)
    } else {
        None
    }
}
