//! Why a text is not read, and why a tree is not written.
ghost use Rattle.std.specs.Prelude.{◌≡◌};

use base64::DecodeAllocError;
use ild_data::TextErr;
use std::alloc::{AllocError, AllocFailed};

/// Why bytes are no DAG-JSON that is read: the first fault of the walk.
#[derive(Clone, Copy, Debug, PartialEq, Eq)]
pub enum JsonErr {
    /// The bytes are no JSON text (RFC 8259), or it nests more than 127 deep.
    Syntax,
    /// A number is no integer of 64 bits.
    Number,
    /// An object has the only key `/`, and is neither a link nor bytes.
    Reserved,
    /// The text of bytes is no base64 without padding.
    Bytes,
    /// The text of a link is no text of a CID.
    Cid,
    /// There is no memory for the tree.
    Memory,
}

impl From<AllocError> for JsonErr {
    ghost use Rattle.ild_json.specs.declared.error.JsonErr.TheVariants.{Memory};

    ghost from_gives = { λ _ e. e ≡ Memory };

    fn from(_refused: AllocError) -> JsonErr {
        JsonErr::Memory
    }
}

impl<T: Drop> From<AllocFailed<T>> for JsonErr {
    ghost use Rattle.ild_json.specs.declared.error.JsonErr.TheVariants.{Memory};

    ghost from_gives = { λ _ e. e ≡ Memory };

    fn from(_refused: AllocFailed<T>) -> JsonErr {
        JsonErr::Memory
    }
}

impl From<TextErr> for JsonErr {
    ghost use Rattle.ild_json.specs.Faults.{text_fault};

    ghost from_gives = { λ e f. f ≡ text_fault e };

    fn from(e: TextErr) -> JsonErr {
        match e {
            TextErr::Prefix | TextErr::Digit | TextErr::Bits | TextErr::Cid(_) => JsonErr::Cid,
            TextErr::Memory => JsonErr::Memory,
        }
    }
}

impl From<DecodeAllocError> for JsonErr {
    ghost use Rattle.ild_json.specs.Faults.{decode_fault};

    ghost from_gives = { λ e f. f ≡ decode_fault e };

    fn from(e: DecodeAllocError) -> JsonErr {
        match e {
            DecodeAllocError::DecodeError(_) => JsonErr::Bytes,
            DecodeAllocError::OutOfMemory => JsonErr::Memory,
        }
    }
}

/// Why a tree has no text.
#[derive(Clone, Copy, Debug, PartialEq, Eq)]
pub enum PrintErr {
    /// A map whose only key is `/` stands in the tree.
    Reserved,
    /// There is no memory for the text.
    Memory,
}

impl From<AllocError> for PrintErr {
    ghost use Rattle.ild_json.specs.declared.error.PrintErr.TheVariants.{Memory};

    ghost from_gives = { λ _ e. e ≡ Memory };

    fn from(_refused: AllocError) -> PrintErr {
        PrintErr::Memory
    }
}

impl<T: Drop> From<AllocFailed<T>> for PrintErr {
    ghost use Rattle.ild_json.specs.declared.error.PrintErr.TheVariants.{Memory};

    ghost from_gives = { λ _ e. e ≡ Memory };

    fn from(_refused: AllocFailed<T>) -> PrintErr {
        PrintErr::Memory
    }
}
