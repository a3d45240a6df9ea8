//! Why a source has no tree.
ghost use Rattle.std.specs.Prelude.{◌≡◌};
ghost use Rattle.ild_parse.specs.declared.error.ParseErr.TheVariants.{Memory};

use std::alloc::{AllocError, AllocFailed};
use thiserror::Error;

/// Why a source has no tree.
#[derive(Debug, Drop, Error)]
pub enum ParseErr {
    /// The first token with which no text of the grammar goes on, or the end of the source.
    #[error("the schema can't go on at byte {at}")]
    Syntax { at: usize },
    /// No memory for the tree.
    #[error("out of memory")]
    Memory,
}

impl From<AllocError> for ParseErr {
    ghost from_gives = { λ _ e. e ≡ Memory };

    fn from(_e: AllocError) -> ParseErr {
        ParseErr::Memory
    }
}

impl<T: Drop> From<AllocFailed<T>> for ParseErr {
    ghost from_gives = { λ _ e. e ≡ Memory };

    fn from(_e: AllocFailed<T>) -> ParseErr {
        ParseErr::Memory
    }
}
