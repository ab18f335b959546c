ghost use Rattle.std.specs.Prelude.{◌≡◌, ◌+◌, ◌<◌, ◌≤◌, ◌^◌, None, length, OnOk};
ghost use Rattle.mea_task_core.specs.Adding.{with_semaphore};
ghost use Rattle.mea_task_core.specs.Machine.{new_machine};
ghost use Rattle.mea_task_run.specs.Machine.{AreKnown, size_of, steps_in, program_of, admits, with_latest, with_step};

use crate::event::TaskEvent;
use crate::lines::event_of_line;
use crate::results::put_results;
use mea_base::NoMemory;
use mea_family::Stop;
use mea_script::Machine;
use mea_task_core::{AddFault, Executor, Step};
use std::alloc::Global;

/// A program of tasks as the machine of scripts: its lines add to an executor, which runs at the end of the input.
#[derive(Drop)]
pub struct TaskMachine {
    executor: Executor,
    // The steps of the latest task, which is added when they are all there.
    latest: Option<Vec<Step>>,
    alloc: Global,
}

impl TaskMachine {
    /// No semaphore and no task. It takes no memory.
    pub fn new(alloc: Global) -> TaskMachine
        ensures executor { result.executor ≡ new_machine }
        ensures latest { result.latest ≡ None }
    {
        TaskMachine {
            executor: Executor::new(alloc),
            latest: None,
            alloc,
        }
    }

    // Whether an event is one here: a step needs a task, and the semaphore that it means.
    fn admits(&self, event: &TaskEvent) -> bool
        ensures { result ≡ admits (program_of self.now) event.now }
    {
        match event {
            TaskEvent::Sem(_) | TaskEvent::Task => true,
            TaskEvent::Step(step) => {
                self.latest.is_some() && step.is_known(self.executor.semaphores())
            }
        }
    }
}

#[tactic(auto, unfolding(crate::specs::Machine::task_rules))]
impl Machine for TaskMachine {
    type Event = TaskEvent;

    ghost use Rattle.mea_task_run.specs.Machine.{Program, program_of, task_rules, StandsAt};

    ghost State = { Program };

    ghost state = { program_of };

    ghost rules = { task_rules };

    ghost stands_at = { λ p n. StandsAt (program_of p) n };

    fn event_of_line(&self, line: &[u8]) -> Option<TaskEvent> {
        let event = event_of_line(line)?;
        if self.admits(&event) {
            Some(event)
        } else {
            None
        }
    }

    fn play(&mut self, _number: u64, event: &TaskEvent, _text: &mut Vec<u8>) -> Result<(), Stop> {
        let played = match event {
            TaskEvent::Sem(permits) => add_semaphore(&mut self.executor, *permits),
            TaskEvent::Task => {
                let latest = self.latest.replace(Vec::new(self.alloc));
                add_latest(&mut self.executor, latest)
            }
            TaskEvent::Step(step) => add_step(&mut self.latest, *step),
        };
        match played {
            Ok(()) => Ok(()),
            Err(_) => Err(Stop::NoMemory),
        }
    }

    fn finish(&mut self, _lines: u64, text: &mut Vec<u8>) -> Result<(), NoMemory> {
        let latest = self.latest.take();
        add_latest(&mut self.executor, latest)?;
        self.executor.run()?;
        put_results(&mut self.executor, text)
    }
}

// Makes a semaphore.
fn add_semaphore(executor: &mut Executor, permits: usize) -> Result<(), NoMemory>
    requires { executor.old.events < 2 ^ 62 }
    ensures { OnOk result (executor.new ≡ with_semaphore executor.old permits) }
{
    executor.add_semaphore(permits)?;
    Ok(())
}

// Adds the latest task, if there is one.
fn add_latest(executor: &mut Executor, latest: Option<Vec<Step>>) -> Result<(), NoMemory>
    requires known { AreKnown (length executor.old.semaphores) (steps_in latest) }
    requires few { executor.old.added + size_of (steps_in latest) ≤ 2 ^ 60 }
    ensures { OnOk result (executor.new ≡ with_latest executor.old (steps_in latest)) }
{
    let Some(steps) = latest else {
        return Ok(());
    };
    match executor.add_task(steps) {
        Ok(_) => Ok(()),
        Err(fault) => match fault {
            AddFault::NoMemory(_) => Err(NoMemory),
            // Each semaphore is there, and a script has few steps.
            AddFault::Unknown { .. } => unreachable!(),
            AddFault::TooMany(_) => unreachable!(),
        },
    }
}

// A step more of the latest task.
fn add_step(latest: &mut Option<Vec<Step>>, step: Step) -> Result<(), NoMemory>
    ensures { OnOk result (steps_in latest.new ≡ with_step (steps_in latest.old) step) }
{
    if let Some(steps) = latest {
        steps.reserve(1)?;
        steps.push_reserved(step);
    }
    Ok(())
}
