use std::sync::Wait;

/// A value that must be spent: a permit, a guard, a handle or a future.
///
/// What `mea` does where such a value is dropped is done by this call, since it takes a lock and so needs
/// the handle to wait.
pub trait End: Sized {
    /// Gives back what the value holds, and wakes who can go on by it. It takes no memory.
    fn end<R: Wait>(self, rt: &R);
}

/// What may not be there is spent where it is.
impl<P: End> End for Option<P> {
    fn end<R: Wait>(self, rt: &R) {
        if let Some(value) = self {
            value.end(rt);
        }
    }
}
