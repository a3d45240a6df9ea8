//! The hash of a HAMT's keys (IPLD HashMap, "hashAlg").
ghost use Rattle.std.specs.Prelude.{◌≡◌, ℕ, List};
ghost use Rattle.ild_data.specs.Padded.{padded};
ghost use Rattle.ild_data.specs.Spell.{id_of};

use crate::block_id;

/// A fixed function of keys, the same for all values of the type.
pub trait KeyHash {
    ghost hash_of: { List ℕ → List ℕ };

    /// The 32 bytes whose bits are the places of the key.
    fn hash(&self, key: &[u8]) -> [u8; 32]
        ensures { result ≡ hash_of key.now };
}

/// Keys are hashed by sha2-256, the multihash 0x12.
#[derive(Clone, Copy, Debug)]
pub struct Sha256Keys;

impl KeyHash for Sha256Keys {
    ghost hash_of = { id_of };

    fn hash(&self, key: &[u8]) -> [u8; 32] {
        block_id(key).0
    }
}

/// A key is its own hash: its first 32 bytes, filled with zeros. For tests, in which keys are to meet where one wants.
#[derive(Clone, Copy, Debug)]
pub struct PadKeys;

impl KeyHash for PadKeys {
    ghost hash_of = { padded };

    fn hash(&self, key: &[u8]) -> [u8; 32] {
        let mut hash = [0; 32];
        let count = key.len().min(32);
        hash[..count].copy_from_slice(&key[..count]);
        hash
    }
}
