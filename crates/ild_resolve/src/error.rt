//! Why a syntax tree has no table of types.
ghost use Rattle.std.specs.Prelude.{◌≡◌};
ghost use Rattle.ild_resolve.specs.declared.error.ResolveErr.TheVariants.{Memory};

use std::alloc::{AllocError, AllocFailed};
use thiserror::Error;

/// Why a syntax tree has no table of types: the first fault, at its place in the text.
#[derive(Debug, Drop, Error)]
pub enum ResolveErr {
    /// A name is declared that was declared before, that the prelude has, or that is `Float`.
    #[error("the name at byte {at} is taken")]
    Twice { at: usize },
    /// A name stands for no type.
    #[error("no type has the name at byte {at}")]
    Unknown { at: usize },
    /// Floats are asked for, which no value here has.
    #[error("there are no floats, as byte {at} asks for")]
    Float { at: usize },
    /// A type is a copy of itself.
    #[error("the type at byte {at} is a copy of itself")]
    CopyCycle { at: usize },
    /// Another advanced layout than `HAMT` is named.
    #[error("no advanced layout has the name at byte {at}")]
    Advanced { at: usize },
    /// More types than 65,535, or more fields or members of a type than 1,024.
    #[error("at byte {at} there are too many types or parts")]
    Many { at: usize },
    /// No memory for the table.
    #[error("out of memory")]
    Memory,
}

impl From<AllocError> for ResolveErr {
    ghost from_gives = { λ _ e. e ≡ Memory };

    fn from(_e: AllocError) -> ResolveErr {
        ResolveErr::Memory
    }
}

impl<T: Drop> From<AllocFailed<T>> for ResolveErr {
    ghost from_gives = { λ _ e. e ≡ Memory };

    fn from(_e: AllocFailed<T>) -> ResolveErr {
        ResolveErr::Memory
    }
}
