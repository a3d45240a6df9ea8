//! Binary CIDs (multiformats, CIDv1) where they stand.
ghost use Rattle.std.specs.Prelude.{◌≡◌, true};
ghost use Rattle.ild_data.specs.CidRead.{is_cid, cid_parts};

use crate::cid_parts::read_parts;
use crate::{BlockId, Cid, CidFault};
use std::alloc::{AllocError, Global};

/// The code of DAG-CBOR (multicodec).
const DAG_CBOR: u64 = 0x71;
/// The code of sha2-256 (multihash).
const SHA2_256: u64 = 0x12;

/// A binary CID, borrowed.
#[derive(Clone, Copy)]
pub struct CidRef<'b> {
    bytes: &'b [u8],
    ghost form: { is_cid bytes.now ≡ true },
}

impl<'b> CidRef<'b> {
    ghost use Rattle.std.specs.Prelude.{◌↔◌, IfOk, IfErr, IfSome, IsOk, IsSome, List, ℕ, length};
    ghost use Rattle.ild_data.specs.Cid.{IsCid};
    ghost use Rattle.ild_data.specs.CidRead.{read_cid};
    ghost use Rattle.ild_data.specs.CidView.{cid_bytes};
    ghost use Rattle.ild_data.specs.Spell.{cid_of};

    /// The CID that the bytes are, all of them.
    #[tactic(auto, using(crate::proofs::Cids::not_read))]
    pub fn read(bytes: &'b [u8]) -> Result<CidRef<'b>, CidFault>
        ensures form { IsOk result ↔ IsCid bytes.now }
        ensures whole { IfOk result (λ c. cid_bytes c ≡ bytes.now) }
        ensures fault { IfErr result (λ e. read_cid bytes.now ≡ Err e) }
    {
        read_parts(bytes)?;
        Ok(CidRef { bytes })
    }

    /// The CID that the bytes were found to be before: nothing is read.
    pub fn known(bytes: &'b [u8]) -> CidRef<'b>
        requires { is_cid bytes.now ≡ true }
        ensures { cid_bytes result ≡ bytes.now }
    {
        CidRef { bytes }
    }

    /// The bytes of the CID.
    pub fn whole(&self) -> &'b [u8]
        ensures same { result.now ≡ cid_bytes self.now }
        ensures form { IsCid (cid_bytes self.now) }
    {
        self.bytes
    }

    // The codec, the hash code and the digest, read where they are asked for.
    fn parts(&self) -> (u64, u64, &'b [u8])
        ensures { cid_parts (cid_bytes self.now) ≡ record { codec = result.0; hash = result.1; digest = result.2.now } }
    {
        match read_parts(self.bytes) {
            Ok(parts) => parts,
            Err(_) => unreachable!(),
        }
    }

    /// The code of the codec (multicodec).
    pub fn codec(&self) -> u64
        ensures { result ≡ (cid_parts (cid_bytes self.now)).codec }
    {
        self.parts().0
    }

    /// The code of the hash function (multihash).
    pub fn hash(&self) -> u64
        ensures { result ≡ (cid_parts (cid_bytes self.now)).hash }
    {
        self.parts().1
    }

    /// The digest.
    pub fn digest(&self) -> &'b [u8]
        ensures { result.now ≡ (cid_parts (cid_bytes self.now)).digest }
    {
        self.parts().2
    }

    /// The id of the block, where the CID is one of DAG-CBOR by sha2-256 with 32 bytes.
    pub fn block(&self) -> Option<BlockId>
        ensures some { let parts = cid_parts (cid_bytes self.now) in IsSome result ↔ ((parts.codec ≡ 0x71) × (parts.hash ≡ 0x12) × (length parts.digest ≡ 32)) }
        ensures id { IfSome result (λ id. id.0 ≡ (cid_parts (cid_bytes self.now)).digest) }
        ensures whole { IfSome result (λ id. cid_bytes self.now ≡ cid_of id.0) }
        ensures only { (id : List ℕ) → length id ≡ 32 → cid_bytes self.now ≡ cid_of id → IsSome result }
    {
        let (codec, hash, digest) = self.parts();
        if codec != DAG_CBOR || hash != SHA2_256 || digest.len() != 32 {
            return None;
        }
        let mut id = [0; 32];
        id.copy_from_slice(digest);
        Some(BlockId(id))
    }

    /// The same CID, owned.
    pub fn own(&self, alloc: Global) -> Result<Cid, AllocError>
        ensures { IfOk result (λ t. t ≡ cid_bytes self.now) }
    {
        Cid::of(alloc, self)
    }
}
