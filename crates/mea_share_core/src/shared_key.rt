ghost use Rattle.std.specs.Prelude.{◌≡◌, IfOk, IfErr};

use mea_base::NoMemory;
use std::alloc::Global;
use std::hash::{Hash, Hasher};
use std::marker::Model;
use std::sync::Arc;

/// A key that is shared: what was queued, admitted or given a permit names it without a copy. Two are equal where their
/// keys are, and have the hash of their key.
///
/// The crate `mea` clones keys.
#[derive(Drop)]
pub struct SharedKey<K> {
    key: Arc<K, Global>,
}

impl<K> Model for SharedKey<K> {
    ghost Value = { K };

    ghost coded = { K.code };

    ghost view = { λ s. s.key.value };
}

impl<K: Drop> SharedKey<K> {
    /// Shares a key; where there is no memory it comes back.
    pub fn new(alloc: Global, key: K) -> Result<SharedKey<K>, (K, NoMemory)>
        ensures ok { IfOk result (λ shared. shared ≡ key) }
        ensures err { IfErr result (λ e. e.0 ≡ key) }
    {
        match Arc::new(alloc, key) {
            Ok(key) => Ok(SharedKey { key }),
            Err(failed) => Err((failed.value, NoMemory)),
        }
    }

    /// The key. It takes no memory.
    pub fn key(&self) -> &K
        ensures { result.now ≡ self.now }
    {
        &*self.key
    }

    /// One more of the same key.
    pub fn share(&self) -> Result<SharedKey<K>, NoMemory>
        ensures { IfOk result (λ shared. shared ≡ self.now) }
    {
        let key = self.key.clone()?;
        Ok(SharedKey { key })
    }
}

impl<K: PartialEq> PartialEq for SharedKey<K> {
    ghost eq = { λ x y. K.eq x y };

    ghost laws = { K.laws };

    fn eq(&self, other: &SharedKey<K>) -> bool {
        *self.key == *other.key
    }
}

impl<K: Eq> Eq for SharedKey<K> {
    ghost laws = { K.Eq.laws };
}

impl<K: Hash> Hash for SharedKey<K> {
    ghost hash_input = { λ x. K.hash_input x };

    ghost respects_eq = { K.respects_eq };

    fn hash<H: Hasher>(&self, state: &mut H) {
        (*self.key).hash(state)
    }
}
