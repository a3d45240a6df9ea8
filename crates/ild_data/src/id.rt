//! The ids of blocks.
ghost use Rattle.std.specs.Prelude.{◌≡◌};
ghost use Rattle.ild_data.specs.Spell.{id_of, cid_of};

use sha2::{Digest, Sha256};

/// The sha2-256 of a block.
#[derive(Clone, Copy, Debug, PartialEq, Eq)]
pub struct BlockId(pub [u8; 32]);

impl BlockId {
    /// The binary CID of the block: version 1, dag-cbor, sha2-256 with 32 bytes.
    pub fn cid(&self) -> [u8; 36]
        ensures { result ≡ cid_of self.now.0 }
    {
        let mut cid = [0; 36];
        cid[0] = 0x01;
        cid[1] = 0x71;
        cid[2] = 0x12;
        cid[3] = 0x20;
        cid[4..].copy_from_slice(&self.0);
        cid
    }
}

/// The id of a block: the sha2-256 of its bytes.
pub fn block_id(bytes: &[u8]) -> BlockId
    ensures { result.0 ≡ id_of bytes.now }
{
    let mut hasher = Sha256::new();
    hasher.update(bytes);
    BlockId(hasher.finalize())
}
