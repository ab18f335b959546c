ghost use Rattle.std.specs.Prelude.{◌≡◌, IfOk};
ghost use Rattle.mea_share_core.specs.Fair.{is_queued};
ghost use Rattle.mea_share_core.specs.declared.share_acquire.ShareStage.TheVariants.{New};

use crate::permit_entry::PermitEntry;
use mea_base::NoMemory;
use mea_share_core::{ShareAcquire, SharedKey};
use std::marker::Model;

/// What a hall keeps of a future: whose it is, its acquire, and whether it is plain.
#[derive(Drop)]
pub struct FutureEntry {
    pub admission: u64,
    pub plain: bool,
    pub acquire: ShareAcquire<u64>,
}

impl Model for FutureEntry {
    ghost use Rattle.mea_share.specs.Kept.{KeptFuture};

    ghost Value = { KeptFuture };

    ghost view = { λ x. record { admission = x.admission; key = x.acquire.key; stage = x.acquire.stage; plain = x.plain } };
}

impl FutureEntry {
    /// One that was never polled. It takes no memory.
    pub fn new(admission: u64, key: SharedKey<u64>, plain: bool) -> Self
        ensures { result ≡ record { admission = admission; key = key; stage = New; plain = plain } }
    {
        FutureEntry {
            admission,
            plain,
            acquire: ShareAcquire::new(key),
        }
    }

    /// The name of its admission. It takes no memory.
    pub fn admission(&self) -> u64
        ensures { result ≡ self.now.admission }
    {
        self.admission
    }

    /// Whether it borrows its admission. It takes no memory.
    pub fn is_plain(&self) -> bool
        ensures { result ≡ self.now.plain }
    {
        self.plain
    }

    /// Whether it waits or was admitted. It takes no memory.
    pub fn is_queued(&self) -> bool
        ensures { result ≡ is_queued self.now.stage }
    {
        self.acquire.is_queued()
    }

    /// The permit that it becomes, where there is room for one more that shares the key.
    pub fn permit(&self) -> Result<PermitEntry, NoMemory>
        ensures { IfOk result (λ permit. permit ≡ record { admission = self.now.admission; key = self.now.key; plain = self.now.plain }) }
    {
        let key = self.acquire.key().share()?;
        Ok(PermitEntry {
            admission: self.admission,
            plain: self.plain,
            key,
        })
    }
}
