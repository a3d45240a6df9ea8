//! Why bytes are no CID, and why a text is no text of one.
ghost use Rattle.std.specs.Prelude.{◌≡◌};

use std::alloc::AllocError;

/// Why bytes are no binary CID (CIDv1): the first fault from the left.
#[derive(Clone, Copy, Debug, PartialEq, Eq)]
pub enum CidFault {
    /// The version is not 1.
    Version,
    /// Nine bytes of a varint say that more follow, or it ends with a needless zero byte.
    Varint,
    /// The bytes end inside a varint or inside the digest.
    Short,
    /// The digest is to have more than 64 bytes.
    Long,
    /// Bytes stand behind the digest.
    Rest,
}

/// Why a text is not the text of a CID in base32: the first of these, in this order.
#[derive(Clone, Copy, Debug, PartialEq, Eq)]
pub enum TextErr {
    /// The text does not begin with `b`.
    Prefix,
    /// A character is outside the alphabet.
    Digit,
    /// Behind the last whole byte five or more bits are left, or one that is set.
    Bits,
    /// The bytes are no CID.
    Cid(CidFault),
    /// There is no memory for the CID.
    Memory,
}

impl From<AllocError> for TextErr {
    ghost use Rattle.ild_data.specs.declared.fault.TextErr.TheVariants.{Memory};

    ghost from_gives = { λ _ e. e ≡ Memory };

    fn from(_e: AllocError) -> TextErr {
        TextErr::Memory
    }
}
