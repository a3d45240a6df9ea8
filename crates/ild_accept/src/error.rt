//! Why a schema isn't accepted.
ghost use Rattle.std.specs.Prelude.{◌≡◌};
ghost use Rattle.ild_accept.specs.declared.error.AcceptErr.TheVariants.{Memory};

use ild_schema::{Rule, TypeNo};
use std::alloc::{AllocError, AllocFailed};
use thiserror::Error;

/// Why a schema isn't accepted.
#[derive(Debug, Drop, Error)]
pub enum AcceptErr {
    /// A rule fails for a type, at a place in the text.
    #[error("the rule {rule:?} fails at byte {at}")]
    Fault { rule: Rule, ty: TypeNo, at: usize },
    /// No memory to judge the schema.
    #[error("out of memory")]
    Memory,
}

impl From<AllocError> for AcceptErr {
    ghost from_gives = { λ _ e. e ≡ Memory };

    fn from(_e: AllocError) -> AcceptErr {
        AcceptErr::Memory
    }
}

impl<T: Drop> From<AllocFailed<T>> for AcceptErr {
    ghost from_gives = { λ _ e. e ≡ Memory };

    fn from(_e: AllocFailed<T>) -> AcceptErr {
        AcceptErr::Memory
    }
}
