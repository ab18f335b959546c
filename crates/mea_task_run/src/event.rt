use mea_task_core::Step;

/// What a line of a program of tasks stands for.
#[derive(Clone, Copy, Debug, PartialEq, Eq)]
pub enum TaskEvent {
    /// Makes a semaphore of so many permits.
    Sem(usize),
    /// Begins a task.
    Task,
    /// Is the next step of the latest task.
    Step(Step),
}
