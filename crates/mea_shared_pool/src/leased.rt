ghost use Rattle.std.specs.Prelude.{◌≡◌};
ghost use Rattle.std.specs.Borrow.{Lends, sem};

use crate::pool::Pool;
use mea_base::Wake;
use mea_wait::{End, Holds};
use std::marker::{Model, PhantomData};
use std::ops::{Deref, DerefMut};
use std::sync::{Arc, Wait};

/// A resource of a pool, lent. It must be ended, which puts it back: last on the shelf, with what was written to it. A contract
/// sees of a lease its slot and its resource.
pub struct Leased<H, T, W> {
    of: H,
    lease: mea_pool_core::Lease<T>,
    waker: PhantomData<W>,
}

/// A lease that borrows its pool.
pub type Lease<'a, T, W> = Leased<&'a Pool<T, W>, T, W>;

/// A lease that owns a share of its pool.
pub type OwnedLease<T, W> = Leased<Arc<Pool<T, W>>, T, W>;

impl<H, T, W> Model for Leased<H, T, W> {
    ghost use Rattle.std.specs.Prelude.{ℕ};
    ghost use Rattle.std.specs.Coded.{coded×, coded_ℕ};

    ghost Value = { ℕ × T };

    ghost coded = { coded× coded_ℕ T.code };

    ghost view = { λ l. l.lease };
}

impl<T: Drop, W: Wake, H: Holds<Pool<T, W>>> Leased<H, T, W> {
    // What was just lent.
    pub(crate) fn of(of: H, lease: mea_pool_core::Lease<T>) -> Self
        ensures { result ≡ lease }
    {
        Leased {
            of,
            lease,
            waker: PhantomData,
        }
    }
}

impl<H, T, W> Leased<H, T, W> {
    /// The slot of its resource: its place in the list that the pool was made of. It takes no memory.
    pub fn slot(&self) -> usize
        ensures { result ≡ self.now.0 }
    {
        self.lease.slot()
    }
}

impl<H, T, W> Deref for Leased<H, T, W> {
    type Target = T;

    ghost deref_gives = { λ lease resource. resource ≡ lease.1 };

    fn deref(&self) -> &T {
        self.lease.resource()
    }
}

impl<H, T, W> DerefMut for Leased<H, T, W> {
    ghost use Rattle.mea_shared_pool.specs.contracts.leased.Leased.{the_row};

    ghost deref_mut_gives = { λ lease resource. resource ≡ lease.1 };

    fn deref_mut(&mut self) -> &mut T
        ensures* writes_back { sem 𝓛 (Lends (the_row H.row T.row W.row) T.row self.entry result (λ y. (self.old.0, y))) }
        ensures value { result.now ≡ self.old.1 }
    {
        self.lease.resource_mut()
    }
}

impl<T: Drop, W: Wake, H: Holds<Pool<T, W>>> End for Leased<H, T, W> {
    fn end<R: Wait>(self, rt: &R) {
        let Leased {
            of,
            lease,
            waker: _,
        } = self;
        of.held().put_back(rt, lease);
    }
}
