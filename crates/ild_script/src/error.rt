//! Why a line is not read.
ghost use Rattle.std.specs.Prelude.{◌≡◌};
ghost use Rattle.ild_script.specs.declared.error.LineErr.TheVariants.{Memory};

use std::alloc::{AllocError, AllocFailed};

/// Why a line is not read: it is outside the grammar, or memory is wanting.
#[derive(Clone, Copy, Debug, PartialEq, Eq)]
pub enum LineErr {
    Line,
    Memory,
}

impl From<AllocError> for LineErr {
    ghost from_gives = { λ _ e. e ≡ Memory };

    fn from(_: AllocError) -> Self {
        LineErr::Memory
    }
}

impl<T: Drop> From<AllocFailed<T>> for LineErr {
    ghost from_gives = { λ _ e. e ≡ Memory };

    fn from(_: AllocFailed<T>) -> Self {
        LineErr::Memory
    }
}
