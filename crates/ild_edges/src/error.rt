//! Why a call to the outside failed.
ghost use Rattle.std.specs.Prelude.{◌≡◌};
ghost use Rattle.ild_edges.specs.declared.error.EdgeErr.TheVariants.{Memory};

use std::alloc::{AllocError, AllocFailed};

/// Why a call to the outside failed: the outside itself, or want of memory.
#[derive(Clone, Copy, Debug, PartialEq, Eq)]
pub enum EdgeErr {
    Failed,
    Memory,
}

impl From<AllocError> for EdgeErr {
    ghost from_gives = { λ _ e. e ≡ Memory };

    fn from(_: AllocError) -> Self {
        EdgeErr::Memory
    }
}

impl<T: Drop> From<AllocFailed<T>> for EdgeErr {
    ghost from_gives = { λ _ e. e ≡ Memory };

    fn from(_: AllocFailed<T>) -> Self {
        EdgeErr::Memory
    }
}
