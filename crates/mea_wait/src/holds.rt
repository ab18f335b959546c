use std::sync::Arc;

/// How a permit, a guard or a future holds on to what it is of: it borrows it, or it owns a share of it.
///
/// So one type serves the plain and the owned form of each. It is met by `&T` and by `Arc<T>`.
pub trait Holds<T>: Drop {
    /// What is held.
    fn held(&self) -> &T;
}

impl<'a, T> Holds<T> for &'a T {
    fn held(&self) -> &T {
        *self
    }
}

impl<T: Drop> Holds<T> for Arc<T> {
    fn held(&self) -> &T {
        &**self
    }
}
