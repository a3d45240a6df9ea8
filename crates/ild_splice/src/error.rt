//! Why a block is not made.
ghost use Rattle.std.specs.Prelude.{◌≡◌};
ghost use Rattle.ild_splice.specs.declared.error.SpliceErr.TheVariants.{Memory};

use std::alloc::AllocError;

/// Why a change of a block is not made.
#[derive(Clone, Copy, Debug, PartialEq, Eq)]
pub enum SpliceErr {
    /// The changed tree is spelled in more than 4,194,304 bytes, the most that a block may have.
    Size,
    /// An allocation was refused.
    Memory,
}

impl From<AllocError> for SpliceErr {
    ghost from_gives = { λ _ e. e ≡ Memory };

    fn from(_: AllocError) -> Self {
        SpliceErr::Memory
    }
}
