//! Why a text has no tokens.
ghost use Rattle.std.specs.Prelude.{◌≡◌};
ghost use Rattle.ild_lex.specs.declared.error.LexErr.TheVariants.{Memory};

use std::alloc::{AllocError, AllocFailed};
use thiserror::Error;

/// Why a text has no tokens: the first fault from its start, at its byte.
#[derive(Debug, Drop, Error)]
pub enum LexErr {
    /// A byte at which no token begins, or an escape that a text doesn't have.
    #[error("no token has the character at byte {at}")]
    Char { at: usize },
    /// A text that its line or the schema ends before its second quote; its first one is here.
    #[error("the text from byte {at} has no end on its line")]
    Unended { at: usize },
    /// No memory for the tokens.
    #[error("out of memory")]
    Memory,
}

impl From<AllocError> for LexErr {
    ghost from_gives = { λ _ e. e ≡ Memory };

    fn from(_e: AllocError) -> LexErr {
        LexErr::Memory
    }
}

impl<T: Drop> From<AllocFailed<T>> for LexErr {
    ghost from_gives = { λ _ e. e ≡ Memory };

    fn from(_e: AllocFailed<T>) -> LexErr {
        LexErr::Memory
    }
}
