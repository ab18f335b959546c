ghost use Rattle.std.specs.Prelude.{◌≡◌};
ghost use Rattle.std.specs.Borrow.{sem};

use std::marker::Model;

/// A resource that is lent, with its slot: its place in the list that the pool was made of. It belongs to the pool
/// that has made it.
///
/// It may be dropped without being put back: its resource is then gone, and its slot stays lent.
#[derive(Drop)]
pub struct Lease<R> {
    pub(crate) slot: usize,
    pub(crate) resource: R,
}

impl<R> Model for Lease<R> {
    ghost use Rattle.std.specs.Prelude.{ℕ};
    ghost use Rattle.std.specs.Coded.{coded×, coded_ℕ};

    ghost Value = { ℕ × R };

    ghost coded = { coded× coded_ℕ R.code };

    ghost view = { λ l. (l.slot, l.resource) };
}

impl<R> Lease<R> {
    ghost use Rattle.mea_pool_core.specs.LeaseLends.{lends_resource};

    /// The slot of its resource. It takes no memory.
    pub fn slot(&self) -> usize
        ensures { result ≡ self.now.0 }
    {
        self.slot
    }

    /// The resource. It takes no memory.
    pub fn resource(&self) -> &R
        ensures { result.now ≡ self.now.1 }
    {
        &self.resource
    }

    /// The resource for writing. It takes no memory.
    pub fn resource_mut(&mut self) -> &mut R
        ensures* writes_back { sem 𝓛 (lends_resource R.row self.entry result) }
        ensures value { result.now ≡ self.old.1 }
    {
        &mut self.resource
    }
}
