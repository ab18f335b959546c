ghost use Rattle.std.specs.Prelude.{◌≡◌, Some, IfSome};

use crate::once::cell::OnceCell;
use crate::unfailing::Unfailing;
use mea_base::{Poll, Wake};
use mea_once_core::{CellCore, Init, Never};
use mea_wait::{End, Polled, Unpolled, Waits};
use std::marker::PhantomData;
use std::sync::{OnceLock, Wait};

/// A wait for the value of a cell that is lent whole, with the initialiser that computes it: the future of
/// `OnceCell::get_mut_or_try_init`. It must be polled to its end, or ended.
pub struct CellMutTryInit<'a, T, E, I, W> {
    of: &'a mut OnceCell<T, W>,
    // None once it has given the value.
    init: Option<I>,
    error: PhantomData<E>,
}

/// The future of `OnceCell::get_mut_or_init`.
pub type CellMutInit<'a, T, I, W> = Unfailing<CellMutTryInit<'a, T, Never, I, W>>;

impl<'a, T: Drop, E, I, W: Wake> CellMutTryInit<'a, T, E, I, W> {
    // A wait that was never polled.
    pub(super) fn of(of: &'a mut OnceCell<T, W>, init: I) -> Self
        ensures { result.init ≡ Some init }
    {
        CellMutTryInit {
            of,
            init: Some(init),
            error: PhantomData,
        }
    }
}

impl<'a, T: Drop, E, I: Drop, W: Wake> End for CellMutTryInit<'a, T, E, I, W> {
    fn end<R: Wait>(self, _rt: &R) {
        let CellMutTryInit {
            of: _,
            init: _,
            error: _,
        } = self;
    }
}

impl<T: Drop, W: Wake> OnceCell<T, W> {
    // Fills the cell, for who has it whole.
    fn put(&mut self, value: T) {
        *self.core.get_mut() = CellCore::from_value(self.alloc, ());
        self.value = OnceLock::from(value);
    }
}

impl<'a, T: Drop, E, I: Init<T, E, W> + Drop, W: Wake> Waits<W, Result<&'a mut T, E>>
    for CellMutTryInit<'a, T, E, I, W> {
    ghost can_poll = { λ w. IfSome w.init I.may_poll };

    fn poll<R: Wait>(
        self,
        _rt: &R,
        waker: W,
    ) -> Result<Polled<Self, Result<&'a mut T, E>>, Unpolled<Self, W>> {
        let CellMutTryInit { of, init, error } = self;
        if of.get().is_none() {
            if let Some(mut init) = init {
                match init.poll(waker) {
                    Poll::Pending => {
                        return Ok(Polled::Pending(CellMutTryInit {
                            of,
                            init: Some(init),
                            error,
                        }));
                    }
                    Poll::Ready(Err(e)) => return Ok(Polled::Ready(Err(e))),
                    Poll::Ready(Ok(value)) => of.put(value),
                }
            }
        }
        match of.value.get_mut() {
            Some(value) => Ok(Polled::Ready(Ok(value))),
            // What was put is there; no clause of std's cell says so.
            None => Ok(Polled::Pending(CellMutTryInit {
                of,
                init: None,
                error,
            })),
        }
    }
}
