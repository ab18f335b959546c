ghost use Rattle.std.specs.Prelude.{◌≡◌, IfOk};

use mea_base::NoMemory;
use mea_share_core::SharedKey;
use std::alloc::Global;
use std::marker::Model;

/// What a hall keeps of a permit: whose it is, its key, and whether it is plain.
#[derive(Drop)]
pub struct PermitEntry {
    pub admission: u64,
    pub plain: bool,
    pub key: SharedKey<u64>,
}

impl Model for PermitEntry {
    ghost use Rattle.mea_share_model.specs.Admissions.{SharePermit};

    ghost Value = { SharePermit };

    ghost view = { λ p. record { admission = p.admission; key = p.key; plain = p.plain } };
}

impl PermitEntry {
    /// One for a key, which is told too.
    pub fn new(
        alloc: Global,
        admission: u64,
        key: u64,
        plain: bool,
    ) -> Result<(SharedKey<u64>, PermitEntry), NoMemory>
        ensures { IfOk result (λ both. (both.0 ≡ key) × (both.1 ≡ record { admission = admission; key = key; plain = plain })) }
    {
        let Ok(own) = SharedKey::new(alloc, key) else {
            return Err(NoMemory);
        };
        let shared = own.share()?;
        let permit = PermitEntry {
            admission,
            plain,
            key: shared,
        };
        Ok((own, permit))
    }

    /// The name of its admission. It takes no memory.
    pub fn admission(&self) -> u64
        ensures { result ≡ self.now.admission }
    {
        self.admission
    }

    /// Whether it borrows its admission. It takes no memory.
    pub fn is_plain(&self) -> bool
        ensures { result ≡ self.now.plain }
    {
        self.plain
    }

    /// Its key. It takes no memory.
    pub fn key(&self) -> &SharedKey<u64>
        ensures { result.now ≡ self.now.key }
    {
        &self.key
    }
}
