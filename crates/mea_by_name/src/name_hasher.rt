ghost use Rattle.std.specs.Prelude.{◌≡◌, ◌<◌};
ghost use Rattle.mea_by_name.specs.NameHasher.{name_read, name_hash, folded};

use std::hash::{BuildHasher, Hasher};

/// An odd number whose multiples differ in their high bits.
const SPREAD: u64 = 0x9e37_79b9_7f4a_7c15;

/// Hashes names, so that names that follow each other lie side by side in a table: what a script makes together it
/// mostly uses together.
///
/// Four names that follow each other share a place of the table. Their high bits are folded into the low ones, so that
/// names at even steps fill a table evenly too. Which names a map finds does not hang on it.
#[derive(Clone, Copy)]
pub struct NameHasher {
    name: u64,
}

impl NameHasher {
    /// One that has read nothing. It takes no memory.
    pub fn new() -> NameHasher
        ensures { result.name ≡ 0 }
    {
        NameHasher { name: 0 }
    }
}

// A number with its bits from the `by`-th on folded into its lowest.
#[inline(always)]
fn folded(x: u64, by: u32) -> u64
    requires { by < 64 }
    ensures { result ≡ folded by x }
{
    x ^ x >> by
}

impl Hasher for NameHasher {
    ghost write = { name_read };

    ghost finish = { λ h. name_hash h.name };

    // The place in the low bits, and above it the tag that tells apart those that share a place.
    #[inline(always)]
    fn finish(&self) -> u64 {
        let four = self.name >> 2;
        let place = folded(folded(folded(folded(four, 4), 9), 14), 29);
        let tag = self.name.wrapping_mul(SPREAD) >> 56;
        tag << 24 | place & 0xff_ffff
    }

    // A name is eight bytes. What else is written changes nothing.
    #[inline(always)]
    fn write(&mut self, bytes: &[u8]) {
        if bytes.len() == 8 {
            self.name = u64::from_le_bytes([
                bytes[0], bytes[1], bytes[2], bytes[3], bytes[4], bytes[5], bytes[6], bytes[7],
            ]);
        }
    }

    #[inline(always)]
    fn write_u64(&mut self, name: u64) {
        self.name = name;
    }
}

impl BuildHasher for NameHasher {
    type Hasher = NameHasher;

    ghost build_hasher = { λ h. h };

    #[inline(always)]
    fn build_hasher(&self) -> NameHasher {
        *self
    }
}
