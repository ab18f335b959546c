ghost use Rattle.std.specs.Prelude.{◌≡◌, ◌<◌, ◌≤◌, [], ◌∷◌, ◌++◌, length, OnOk, IfSome, IfNone};
ghost use Rattle.mea_task_core.specs.TaskOrder.{is_empty};

use mea_base::NoMemory;
use std::alloc::Global;
use std::collections::VecDeque;
use std::marker::Model;

/// The tasks whose turns come next, by number. Room for each task is made when the task is added, so that a task takes no
/// memory when it is woken or yields.
#[derive(Drop)]
pub(crate) struct RunQueue {
    tasks: VecDeque<usize>,
}

impl Model for RunQueue {
    ghost use Rattle.std.specs.VecDeque.{deque_capacity};
    ghost use Rattle.mea_task_core.specs.TaskOrder.{TaskOrder, order_code};

    ghost Value = { TaskOrder };

    ghost coded = { order_code };

    ghost view = { λ q. record { tasks = q.tasks.items; room = deque_capacity q.tasks } };
}

impl RunQueue {
    /// No task. It takes no memory.
    pub(crate) fn new(alloc: Global) -> RunQueue
        ensures { result.tasks ≡ [] }
    {
        RunQueue {
            tasks: VecDeque::new(alloc),
        }
    }

    /// Makes room for so many tasks, which may take memory.
    pub(crate) fn reserve(&mut self, tasks: usize) -> Result<(), NoMemory>
        ensures room { OnOk result (tasks ≤ self.new.room) }
        ensures grows { self.old.room ≤ self.new.room }
        ensures tasks { self.new.tasks ≡ self.old.tasks }
    {
        self.tasks.reserve(tasks.saturating_sub(self.tasks.len()))?;
        Ok(())
    }

    /// Appends a task. It takes no memory.
    pub(crate) fn push(&mut self, task: usize)
        requires { length self.old.tasks < self.old.room }
        ensures { self.new ≡ record self.old { tasks = self.old.tasks ++ task ∷ [] } }
    {
        self.tasks.push_back_reserved(task);
    }

    /// Takes the first task.
    pub(crate) fn pop(&mut self) -> Option<usize>
        ensures some { IfSome result (λ task. self.old ≡ record self.new { tasks = task ∷ self.new.tasks }) }
        ensures none { IfNone result ((self.old.tasks ≡ []) × (self.new ≡ self.old)) }
    {
        self.tasks.pop_front()
    }

    /// Whether it has no task.
    pub(crate) fn is_empty(&self) -> bool
        ensures { result ≡ is_empty self.now.tasks }
    {
        self.tasks.is_empty()
    }
}
