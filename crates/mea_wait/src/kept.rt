ghost use Rattle.std.specs.Prelude.{◌≡◌};
ghost use Rattle.std.specs.Borrow.{sem};

use crate::end::End;
use std::marker::Model;
use std::ops::{Deref, DerefMut};
use std::sync::Wait;

/// A value that must be spent, with the handle to spend it where this is dropped. It is what one puts into
/// a closure, a list or a task, which hold nothing that must be spent. A contract sees of it the value.
pub struct Kept<'a, R: Wait, P: End> {
    rt: &'a R,
    value: P,
}

impl<'a, R: Wait, P: End> Model for Kept<'a, R, P> {
    ghost use Rattle.mea_wait.specs.Kept.{Kept, kept_code};

    ghost Value = { Kept P };

    ghost coded = { kept_code P.code };

    ghost view = { λ k. record { value = k.value } };
}

impl<'a, R: Wait, P: End> Kept<'a, R, P> {
    ghost use Rattle.mea_wait.specs.KeptLends.{lends_value};

    /// Keeps the value. It takes no memory.
    pub fn new(rt: &'a R, value: P) -> Self
        ensures { result.value ≡ value }
    {
        Kept { rt, value }
    }

    /// The value. It takes no memory.
    pub fn get(&self) -> &P
        ensures { result.now ≡ self.now.value }
    {
        &self.value
    }

    /// The value for writing. It takes no memory.
    pub fn get_mut(&mut self) -> &mut P
        ensures* writes_back { sem 𝓛 (lends_value R.row P.row self.entry result) }
        ensures value { result.now ≡ self.old.value }
    {
        &mut self.value
    }

    /// The value, which the caller then has to spend. It takes no memory.
    pub fn into_inner(self) -> P
        ensures { result ≡ self.entry.value }
    {
        let Kept { rt: _, value } = self;
        value
    }
}

impl<'a, R: Wait, P: End> Deref for Kept<'a, R, P> {
    type Target = P;

    ghost deref_gives = { λ kept value. value ≡ kept.value };

    fn deref(&self) -> &P {
        &self.value
    }
}

impl<'a, R: Wait, P: End> DerefMut for Kept<'a, R, P> {
    ghost use Rattle.mea_wait.specs.KeptLends.{lends_value};

    ghost deref_mut_gives = { λ kept value. value ≡ kept.value };

    fn deref_mut(&mut self) -> &mut P
        ensures* writes_back { sem 𝓛 (lends_value R.row P.row self.entry result) }
        ensures value { result.now ≡ self.old.value }
    {
        &mut self.value
    }
}

impl<'a, R: Wait, P: End> Drop for Kept<'a, R, P> {
    fn drop(self) {
        let Kept { rt, value } = self;
        value.end(rt);
    }
}
