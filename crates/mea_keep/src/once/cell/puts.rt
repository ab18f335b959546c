ghost use Rattle.std.specs.Prelude.{◌≡◌, IfErr};

use crate::claim::{Claiming, Step};
use crate::once::cell::OnceCell;
use crate::once::cell::waits::CellClaiming;
use mea_base::Wake;
use mea_wait::{End, PollFault, Polled, Unpolled, Waits};
use std::marker::Model;
use std::sync::Wait;

/// A wait until a value is put into a cell: the future of `OnceCell::try_insert`. It must be polled to its end, or ended;
/// ended, its value is dropped. A contract sees of it that value.
pub struct CellInsert<'a, T, W> {
    wait: CellClaiming<'a, T, W>,
    value: T,
}

/// A wait until a value is put into a cell: the future of `OnceCell::set`. It must be polled to its end, or ended; ended,
/// its value is dropped. A contract sees of it that value.
pub struct CellSet<'a, T, W> {
    insert: CellInsert<'a, T, W>,
}

impl<'a, T, W> Model for CellInsert<'a, T, W> {
    ghost Value = { T };

    ghost coded = { T.code };

    ghost view = { λ insert. insert.value };
}

impl<'a, T, W> Model for CellSet<'a, T, W> {
    ghost Value = { T };

    ghost coded = { T.code };

    ghost view = { λ set. set.insert };
}

impl<'a, T: Drop, W: Wake> CellInsert<'a, T, W> {
    // A wait that was never polled.
    pub(super) fn of(of: &'a OnceCell<T, W>, value: T) -> Self
        ensures { result ≡ value }
    {
        CellInsert {
            wait: CellClaiming::of(of),
            value,
        }
    }
}

impl<'a, T: Drop, W: Wake> CellSet<'a, T, W> {
    // A wait that was never polled.
    pub(super) fn of(of: &'a OnceCell<T, W>, value: T) -> Self
        ensures { result ≡ value }
    {
        CellSet {
            insert: CellInsert::of(of, value),
        }
    }
}

impl<'a, T: Drop, W: Wake> End for CellInsert<'a, T, W> {
    fn end<R: Wait>(self, rt: &R) {
        let CellInsert { wait, value: _ } = self;
        wait.end(rt);
    }
}

impl<'a, T: Drop, W: Wake> End for CellSet<'a, T, W> {
    fn end<R: Wait>(self, rt: &R) {
        let CellSet { insert } = self;
        insert.end(rt);
    }
}

impl<'a, T: Drop, W: Wake> Waits<W, Result<&'a T, (&'a T, T)>> for CellInsert<'a, T, W> {
    ghost gives = { λ insert put. IfErr put (λ back. back.1 ≡ insert) };

    fn poll<R: Wait>(
        self,
        rt: &R,
        waker: W,
    ) -> Result<Polled<Self, Result<&'a T, (&'a T, T)>>, Unpolled<Self, W>> {
        let CellInsert { wait, value } = self;
        match wait.poll_claim(rt, waker) {
            Step::There(there) => Ok(Polled::Ready(Err((there, value)))),
            Step::Mine(claim, _) => Ok(Polled::Ready(Ok(claim.finish(rt, value)))),
            Step::Pending(wait) => Ok(Polled::Pending(CellInsert { wait, value })),
            Step::Refused(wait, waker) => Err(Unpolled {
                future: CellInsert { wait, value },
                waker,
                fault: PollFault::NoMemory,
            }),
        }
    }
}

impl<'a, T: Drop, W: Wake> Waits<W, Result<(), T>> for CellSet<'a, T, W> {
    ghost gives = { λ set put. IfErr put (λ back. back ≡ set) };

    fn poll<R: Wait>(
        self,
        rt: &R,
        waker: W,
    ) -> Result<Polled<Self, Result<(), T>>, Unpolled<Self, W>> {
        let CellSet {
            insert: CellInsert { wait, value },
        } = self;
        match wait.poll_claim(rt, waker) {
            Step::There(_) => Ok(Polled::Ready(Err(value))),
            Step::Mine(claim, _) => {
                claim.finish(rt, value);
                Ok(Polled::Ready(Ok(())))
            }
            Step::Pending(wait) => Ok(Polled::Pending(CellSet {
                insert: CellInsert { wait, value },
            })),
            Step::Refused(wait, waker) => Err(Unpolled {
                future: CellSet {
                    insert: CellInsert { wait, value },
                },
                waker,
                fault: PollFault::NoMemory,
            }),
        }
    }
}
