//! Why a proof says nothing.
ghost use Rattle.std.specs.Prelude.{◌≡◌};
ghost use Rattle.ild_inclusion.specs.declared.fault.VerifyErr.TheVariants.{Memory};

use std::alloc::{AllocError, AllocFailed};

/// Why blocks prove nothing of a path: the first thing on the way that is wrong. Blocks are counted from 0.
#[derive(Clone, Copy, Debug, PartialEq, Eq)]
pub enum Reject {
    /// There is no block.
    Empty,
    /// The first block hasn't the id of the root.
    Root,
    /// This block isn't the spelling of data within the limits of a block.
    Cbor(usize),
    /// This block isn't of its type, or no node of a HAMT; or the value of the key in it isn't of its slot, or nests too deep; or a link stands on the
    /// key's way in it, though no level is left.
    Shape(usize),
    /// This block isn't there, or isn't the child that is next on the way.
    Missing(usize),
    /// The way ends before this block.
    Extra(usize),
}

/// Why there is no answer.
#[derive(Clone, Copy, Debug, PartialEq, Eq)]
pub enum VerifyErr {
    /// The blocks prove nothing.
    Reject(Reject),
    /// Memory is wanting.
    Memory,
}

impl From<AllocError> for VerifyErr {
    ghost from_gives = { λ _ e. e ≡ Memory };

    fn from(_: AllocError) -> Self {
        VerifyErr::Memory
    }
}

impl<T: Drop> From<AllocFailed<T>> for VerifyErr {
    ghost from_gives = { λ _ e. e ≡ Memory };

    fn from(_: AllocFailed<T>) -> Self {
        VerifyErr::Memory
    }
}
