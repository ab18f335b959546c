ghost use Rattle.std.specs.Prelude.{◌≡◌};

/// What a task does next. A semaphore is meant by its place, counted from 0.
#[derive(Clone, Copy, Debug, PartialEq, Eq)]
pub enum Step {
    /// Takes so many permits of a semaphore, and waits until it has them all.
    Take(usize, usize),
    /// Releases so many permits to a semaphore.
    Give(usize, usize),
    /// Goes to the end of the run queue.
    Yield,
}

impl Step {
    ghost use Rattle.mea_task_core.specs.Adding.{is_known};
    ghost use Rattle.mea_task_core.specs.Bounds.{may_rest};

    /// Whether the semaphore that it means is among so many. It takes no memory.
    pub fn is_known(&self, semaphores: usize) -> bool
        ensures { result ≡ is_known semaphores self.now }
    {
        match *self {
            Step::Take(semaphore, _) | Step::Give(semaphore, _) => semaphore < semaphores,
            Step::Yield => true,
        }
    }

    // Whether a further turn may be needed after it.
    pub(crate) fn may_rest(&self) -> bool
        ensures { result ≡ may_rest self.now }
    {
        match *self {
            Step::Take(..) | Step::Yield => true,
            Step::Give(..) => false,
        }
    }
}
