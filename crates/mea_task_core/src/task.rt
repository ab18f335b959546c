ghost use Rattle.std.specs.Prelude.{◌≡◌, ◌<◌, length};
ghost use Rattle.mea_task_core.specs.Task.{TaskRecord, next_step, at_phase, past, over, woken_phase, future_in};
ghost use Rattle.mea_task_core.specs.Settled.{state_by};

use crate::phase::Phase;
use crate::state::TaskState;
use crate::step::Step;
use std::marker::Model;

/// One task: its steps, how many of them are over, and how far it is with the next one.
#[derive(Drop)]
pub(crate) struct Task {
    steps: Vec<Step>,
    position: usize,
    phase: Phase,
}

impl Model for Task {
    ghost use Rattle.mea_task_core.specs.Task.{TaskRecord, task_code};

    ghost Value = { TaskRecord };

    ghost coded = { task_code };

    ghost view = { λ t. record { steps = t.steps.items; position = t.position; phase = t.phase } };
}

impl Task {
    /// A task that has not begun. It takes no memory.
    pub(crate) fn new(steps: Vec<Step>) -> Task
        ensures { result ≡ record { steps = steps.items; position = 0; phase = Phase.Queued } }
    {
        Task {
            steps,
            position: 0,
            phase: Phase::Queued,
        }
    }

    /// The step that it comes to next, if one is left.
    pub(crate) fn next(&self) -> Option<Step>
        ensures { result ≡ next_step self.now }
    {
        self.steps.get(self.position).copied()
    }

    /// The future of that step, if it has been made.
    pub(crate) fn future(&self) -> Option<u64>
        ensures { result ≡ future_in self.now.phase }
    {
        match self.phase {
            Phase::Asks(future) | Phase::Waits(future) | Phase::Woken(future) => Some(future),
            Phase::Queued | Phase::Finished | Phase::Failed => None,
        }
    }

    /// It comes to another phase of its step.
    pub(crate) fn come_to(&mut self, phase: Phase)
        ensures { self.new ≡ at_phase self.old phase }
    {
        self.phase = phase;
    }

    /// Its step is over.
    pub(crate) fn pass(&mut self)
        requires { self.old.position < length self.old.steps }
        ensures { self.new ≡ past self.old }
    {
        self.position += 1;
        self.phase = Phase::Queued;
    }

    /// It is over, with this phase, and gives its steps back.
    pub(crate) fn end(&mut self, phase: Phase)
        ensures { self.new ≡ over phase }
    {
        let alloc = *self.steps.allocator();
        self.steps = Vec::new(alloc);
        self.position = 0;
        self.phase = phase;
    }

    /// It is woken, if it waits.
    pub(crate) fn wake(&mut self)
        ensures { self.new ≡ at_phase self.old (woken_phase self.old.phase) }
    {
        if let Phase::Waits(future) = self.phase {
            self.phase = Phase::Woken(future);
        }
    }

    /// What has become of it.
    pub(crate) fn state(&self) -> TaskState
        ensures { result ≡ state_by self.now self.now.phase }
    {
        match self.phase {
            Phase::Queued | Phase::Asks(_) | Phase::Woken(_) => TaskState::Queued,
            Phase::Waits(_) => match self.next() {
                Some(Step::Take(semaphore, demand)) => TaskState::Waits { semaphore, demand },
                _ => TaskState::Queued,
            },
            Phase::Finished => TaskState::Finished,
            Phase::Failed => TaskState::Failed,
        }
    }
}
