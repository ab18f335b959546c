/// What is called before each round of each worker: where a test holds one worker until another has come so far.
pub trait Gate: Sync {
    /// Called by the worker of this number before its round of this number, on its own thread.
    fn before(&self, worker: usize, round: u32);
}

/// A gate that holds nobody.
#[derive(Clone, Copy, Debug, Drop)]
pub struct Open;

impl Gate for Open {
    fn before(&self, _worker: usize, _round: u32) {}
}
