ghost use Rattle.std.specs.Prelude.{◌≡◌};

use crate::shared_key::SharedKey;

/// How far an acquire is.
#[derive(Clone, Copy, Debug, PartialEq, Eq, Drop)]
pub enum ShareStage {
    /// Never polled.
    New,
    /// Polled and not ready then: it waits, or was admitted since, under this number of its core.
    Queued(u64),
    /// It was ready.
    Done,
}

/// The future of an acquire: whose permit it asks for, and how far it is. It belongs to the core that has polled it.
///
/// It may be dropped without its ending call: its core then stays as it is. It ports the state of `mea`'s `Acquire`.
#[derive(Drop)]
pub struct ShareAcquire<K> {
    key: SharedKey<K>,
    stage: ShareStage,
}

impl<K: Drop> ShareAcquire<K> {
    ghost use Rattle.mea_share_core.specs.Fair.{is_queued};

    /// An acquire for a key that was never polled. It takes no memory.
    pub fn new(key: SharedKey<K>) -> Self
        ensures { (result.key ≡ key) × (result.stage ≡ ShareStage.New) }
    {
        ShareAcquire {
            key,
            stage: ShareStage::New,
        }
    }

    /// Whose permit it asks for. It takes no memory.
    pub fn key(&self) -> &SharedKey<K>
        ensures { result.now ≡ self.now.key }
    {
        &self.key
    }

    /// The key, of an acquire that is given up or was ready. It takes no memory.
    pub fn into_key(self) -> SharedKey<K>
        ensures { result ≡ self.key }
    {
        self.key
    }

    /// Whether it was polled and not ready then. It takes no memory.
    pub fn is_queued(&self) -> bool
        ensures { result ≡ is_queued self.now.stage }
    {
        match self.stage {
            ShareStage::Queued(_) => true,
            ShareStage::New => false,
            ShareStage::Done => false,
        }
    }

    /// Makes it one that was never polled, for the same key. It takes no memory.
    pub fn renew(&mut self)
        ensures { self.new ≡ record self.old { stage = ShareStage.New } }
    {
        self.stage = ShareStage::New;
    }

    pub(crate) fn stage(&self) -> ShareStage
        ensures { result ≡ self.now.stage }
    {
        self.stage
    }

    pub(crate) fn go(&mut self, stage: ShareStage)
        ensures { self.new ≡ record self.old { stage = stage } }
    {
        self.stage = stage;
    }
}
