/// An object of which one number is at its end.
pub(crate) trait AtItsEnd: Drop {
    /// Makes the call that would pass the end, and tells whether it is refused for that and hands back what it was given.
    fn refuses(&mut self) -> bool;

    /// The numbers that can be read of it.
    fn numbers(&mut self) -> [u64; 3];

    /// Makes a call that stays within the end, and tells whether it is served.
    fn goes_on(&mut self) -> bool;
}

/// Whether an object refuses to pass its end, twice, is as it was after each refusal, and goes on.
pub(crate) fn holds<T: AtItsEnd>(mut object: T) -> bool {
    let numbers = object.numbers();
    for _ in 0..2 {
        if !object.refuses() || object.numbers() != numbers {
            return false;
        }
    }
    object.goes_on()
}
