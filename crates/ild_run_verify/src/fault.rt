//! Why what a proof says isn't told.
ghost use Rattle.std.specs.Prelude.{◌≡◌};
ghost use Rattle.ild_run_verify.specs.declared.fault.VerifyFault.TheVariants.{Memory};

use ild_script_session::Cut;
use std::alloc::{AllocError, AllocFailed};

/// Why what a proof says isn't told.
#[derive(Clone, Copy)]
pub enum VerifyFault {
    /// The input is no proof, or its blocks say nothing of the path, and nothing was written.
    Proof,
    /// Memory was wanting, and nothing was written.
    Memory,
    /// The line was cut off.
    Cut(Cut),
}

impl From<AllocError> for VerifyFault {
    ghost from_gives = { λ _ e. e ≡ Memory };

    fn from(_: AllocError) -> Self {
        VerifyFault::Memory
    }
}

impl<T: Drop> From<AllocFailed<T>> for VerifyFault {
    ghost from_gives = { λ _ e. e ≡ Memory };

    fn from(_: AllocFailed<T>) -> Self {
        VerifyFault::Memory
    }
}
