/// What stands for a task that waits: a shared type calls it once that task should poll again. Cores keep
/// wakers of any type and never call them.
///
/// A waker may be dropped at any time, also while a lock is held: to drop one wakes nobody, and calls
/// nothing of the object that it waits at.
pub trait Wake: Drop {
    /// Tells the task to poll again.
    fn wake(self);
}
