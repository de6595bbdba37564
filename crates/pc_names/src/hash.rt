//! A hash of codes with a key, and keys for callers that have no random one.
ghost use Rattle.std.specs.Prelude.{fold};
ghost use Rattle.std.specs.Hash as fed;
ghost use Rattle.std.specs.Hash.FoldHasher as folding;

use pc_text::Code;
use std::hash::{BuildHasher, DefaultHasher, FoldHasher, Hash, Hasher};

/// Makes the hashers of one table. All of them have the same key.
#[derive(Clone, Copy)]
pub(crate) struct CodeHash {
    begun: FoldHasher,
    key: u128,
}

impl CodeHash {
    /// Creates a hash with this key.
    pub(crate) fn new(key: u128) -> CodeHash {
        let mut begun = FoldHasher::default();
        begun.write_u128(key);
        CodeHash { begun, key }
    }

    pub(crate) fn key(&self) -> u128 {
        self.key
    }
}

impl BuildHasher for CodeHash {
    type Hasher = CodeHasher;

    ghost build_hasher = { λ hash. record { inner = hash.begun; key = hash.key } };

    fn build_hasher(&self) -> CodeHasher {
        CodeHasher {
            inner: self.begun,
            key: self.key,
        }
    }
}

/// Hashes the key, the written bytes, and the key again.
///
/// The key before a code hides which codes collide in the state. The key after it hides which states collide in a slot
/// of the table: without it, codes that differ only in a few bits would share the bits that choose the slot, whatever
/// the key is.
#[derive(Clone, Copy)]
pub(crate) struct CodeHasher {
    inner: FoldHasher,
    key: u128,
}

impl Hasher for CodeHasher {
    ghost write = { λ hasher bytes. record hasher { inner = folding.write hasher.inner bytes } };

    ghost finish = { λ hasher. folding.finish (fold folding.write hasher.inner (fed.u128 hasher.key)) };

    #[inline(always)]
    fn finish(&self) -> u64 {
        let mut last = self.inner;
        last.write_u128(self.key);
        last.finish()
    }

    #[inline(always)]
    fn write(&mut self, bytes: &[u8]) {
        self.inner.write(bytes);
    }
}

/// Returns a key that depends on each of these bytes. Linear in the bytes.
///
/// It is a digest by SipHash-1-3: if you change the bytes to crowd the table of one key, you get another key.
pub fn key_of_bytes(bytes: &[u8]) -> u128 {
    let mut hasher = DefaultHasher::new();
    hasher.write(bytes);
    key_by(hasher)
}

/// Returns a key that depends on each of these codes, as [`key_of_bytes`] does. Linear in the codes.
pub(crate) fn key_of_codes(codes: &[Code]) -> u128 {
    let mut hasher = DefaultHasher::new();
    Code::hash_slice(codes, &mut hasher);
    key_by(hasher)
}

/// The key that a hasher gives: its hash, and the hash once that was written too.
fn key_by(mut hasher: DefaultHasher) -> u128 {
    let first = hasher.finish();
    hasher.write_u64(first);
    let second = hasher.finish();
    (first as u128) << 64 | second as u128
}
