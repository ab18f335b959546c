ghost use Rattle.std.specs.Prelude.{IsOk};

use crate::claim::{Claim, Claimed, Claiming, ReadyValue, Step, told};
use crate::once::cell::{OnceCell, steps};
use mea_base::{NoMemory, Wake};
use mea_once_core::{CellTurn, InitCall};
use mea_wait::{End, Polled, Unpolled, Waits};
use std::sync::Wait;

/// A wait for the value of a cell, or for the turn to compute it: the future of `OnceCell::claim`. It must be polled to
/// its end, or ended.
pub struct CellClaiming<'a, T, W> {
    of: &'a OnceCell<T, W>,
    call: InitCall<()>,
}

/// The turn to fill a cell. It must be spent: by `finish`, or by `end`, which passes the turn on.
pub struct CellClaim<'a, T, W> {
    of: &'a OnceCell<T, W>,
}

impl<'a, T: Drop, W: Wake> CellClaiming<'a, T, W> {
    // A wait that was never polled.
    pub(super) fn of(of: &'a OnceCell<T, W>) -> Self {
        CellClaiming {
            of,
            call: InitCall::new(()),
        }
    }
}

impl<'a, T: Drop, W: Wake> CellClaim<'a, T, W> {
    /// Fills the cell, lends its value, and wakes the next that waits for it. It takes no memory.
    ///
    /// Nobody else fills the cell meanwhile, so the value that was there is that of this call.
    pub fn finish<R: Wait>(self, rt: &R, value: T) -> &'a T {
        let CellClaim { of } = self;
        let there = of.give(rt, value);
        let made = steps::fill(&mut *of.core.lock(rt));
        of.wake(rt, made);
        there
    }
}

impl<T: Drop, W: Wake> OnceCell<T, W> {
    // Puts a value where there is none, and lends what is there.
    fn give<R: Wait>(&self, rt: &R, value: T) -> &T {
        match self.value.try_insert(rt, value) {
            Ok(token) => self.value.value(&token),
            Err((token, _back)) => self.value.value(&token),
        }
    }
}

impl<'a, T: Drop, W: Wake> End for CellClaiming<'a, T, W> {
    fn end<R: Wait>(self, rt: &R) {
        let CellClaiming { of, call } = self;
        let made = steps::end(&mut *of.core.lock(rt), call);
        of.wake(rt, made);
    }
}

impl<'a, T: Drop, W: Wake> End for CellClaim<'a, T, W> {
    fn end<R: Wait>(self, rt: &R) {
        let CellClaim { of } = self;
        let made = steps::give_up(&mut *of.core.lock(rt));
        of.wake(rt, made);
    }
}

impl<'a, T: Drop, W: Wake> Claim<T, &'a T, ReadyValue<&'a T>> for CellClaim<'a, T, W> {
    fn finish<R: Wait>(self, rt: &R, value: T) -> Result<&'a T, ReadyValue<&'a T>>
        ensures { IsOk result }
    {
        Ok(CellClaim::finish(self, rt, value))
    }
}

impl<'a, T: Drop, W: Wake> Claiming<W, &'a T, CellClaim<'a, T, W>> for CellClaiming<'a, T, W> {
    fn poll_claim<R: Wait>(self, rt: &R, waker: W) -> Step<Self, CellClaim<'a, T, W>, &'a T, W> {
        let CellClaiming { of, mut call } = self;
        let (answer, made) = steps::poll(&mut *of.core.lock(rt), &mut call, waker);
        of.wake(rt, made);
        match answer {
            // Who fills the cell puts the value first, so nobody waits here.
            Ok(CellTurn::Full) => Step::There(of.value.wait(rt)),
            Ok(CellTurn::Mine(waker)) => Step::Mine(CellClaim { of }, waker),
            Ok(CellTurn::Pending) => Step::Pending(CellClaiming { of, call }),
            Err((waker, NoMemory)) => Step::Refused(CellClaiming { of, call }, Some(waker)),
        }
    }
}

impl<'a, T: Drop, W: Wake> Waits<W, Claimed<&'a T, CellClaim<'a, T, W>>>
    for CellClaiming<'a, T, W> {
    fn poll<R: Wait>(
        self,
        rt: &R,
        waker: W,
    ) -> Result<Polled<Self, Claimed<&'a T, CellClaim<'a, T, W>>>, Unpolled<Self, W>> {
        told(self.poll_claim(rt, waker))
    }
}
