//! The parts of a binary CID, from left to right.
ghost use Rattle.std.specs.Prelude.{◌≡◌};
ghost use Rattle.ild_data.specs.CidRead.{Gives, read_version, read_digest, read_cid};

use crate::CidFault;
use crate::varint::read_varint;

/// The most bytes that a digest has.
const LONGEST_DIGEST: u64 = 64;

/// What follows the version, which is 1.
#[tactic(auto, unfolding(crate::specs::CidRead::read_version))]
fn read_version(bytes: &[u8]) -> Result<&[u8], CidFault>
    ensures { Gives (λ x. x.now) result (read_version bytes.now) }
{
    let (version, rest) = read_varint(bytes)?;
    if version != 1 {
        return Err(CidFault::Version);
    }
    Ok(rest)
}

/// The digest, which is to have this size and to end the bytes.
#[tactic(auto, unfolding(crate::specs::CidRead::read_digest))]
fn read_digest(size: u64, bytes: &[u8]) -> Result<&[u8], CidFault>
    ensures { Gives (λ x. x.now) result (read_digest size bytes.now) }
{
    let found = bytes.len() as u64;
    if size > LONGEST_DIGEST {
        Err(CidFault::Long)
    } else if found < size {
        Err(CidFault::Short)
    } else if found > size {
        Err(CidFault::Rest)
    } else {
        Ok(bytes)
    }
}

/// The codec, the hash code and the digest.
#[tactic(auto, unfolding(crate::specs::CidRead::read_cid))]
pub(crate) fn read_parts(bytes: &[u8]) -> Result<(u64, u64, &[u8]), CidFault>
    ensures { Gives (λ x. record { codec = x.0; hash = x.1; digest = x.2.now }) result (read_cid bytes.now) }
{
    let rest = read_version(bytes)?;
    let (codec, rest) = read_varint(rest)?;
    let (hash, rest) = read_varint(rest)?;
    let (size, rest) = read_varint(rest)?;
    let digest = read_digest(size, rest)?;
    Ok((codec, hash, digest))
}
