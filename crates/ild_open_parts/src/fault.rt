//! Why a root isn't opened, or a value isn't loaded.
ghost use Rattle.std.specs.Prelude.{◌≡◌};
ghost use Rattle.ild_open_parts.specs.declared.fault.OpenFault.TheVariants.{Memory};

use ild_cbor::BlockWhy;
use ild_data::BlockId;
use std::alloc::{AllocError, AllocFailed};

/// Why a root isn't opened, or a value isn't loaded.
#[derive(Clone, Copy, Debug, PartialEq, Eq)]
pub enum OpenFault {
    /// The block under an id isn't held, or isn't what the type asks for there.
    Block { id: BlockId, why: BlockWhy },
    /// The store failed.
    Store,
    /// Memory is wanting.
    Memory,
}

impl From<AllocError> for OpenFault {
    ghost from_gives = { λ _ e. e ≡ Memory };

    fn from(_: AllocError) -> Self {
        OpenFault::Memory
    }
}

impl<T: Drop> From<AllocFailed<T>> for OpenFault {
    ghost from_gives = { λ _ e. e ≡ Memory };

    fn from(_: AllocFailed<T>) -> Self {
        OpenFault::Memory
    }
}
