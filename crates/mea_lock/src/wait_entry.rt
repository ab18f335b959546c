ghost use Rattle.std.specs.Prelude.{◌≡◌, true, false, None};

/// What a hall keeps of a wait on a condition variable.
#[derive(Clone, Copy)]
pub struct WaitEntry {
    pub condvar: u64,
    /// The value that it waits for, if it waits for one.
    pub bound: Option<u64>,
    pub polled: bool,
    /// Its number in the condition variable, while it is listed there.
    pub number: Option<usize>,
    /// Whether it was notified alone.
    pub alone: bool,
}

impl WaitEntry {
    /// It gave the lock up, and waits under the number of its place.
    pub fn list(&mut self, place: Option<usize>)
        ensures { self.new ≡ record self.old { polled = true; number = place; alone = false } }
    {
        self.polled = true;
        self.number = place;
        self.alone = false;
    }

    /// It asks for the lock, and is listed no more.
    pub fn ask(&mut self)
        ensures { self.new ≡ record self.old { polled = true; number = None } }
    {
        self.polled = true;
        self.number = None;
    }
}
