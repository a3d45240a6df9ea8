//! Why the nodes of a HAMT can't be planned.
ghost use Rattle.std.specs.Prelude.{◌≡◌};
ghost use Rattle.ild_bulk.specs.Faults.{plan_fault};
ghost use Rattle.ild_bulk.specs.declared.fault.PlanFault.TheVariants.{Memory};

use ild_node::HamtFault;
use std::alloc::{AllocError, AllocFailed};

/// Why the nodes of a HAMT can't be planned. Planning asks no store.
#[derive(Clone, Copy, Debug, PartialEq, Eq)]
pub enum PlanFault {
    /// More keys than a bucket takes agree in all bits of their hashes that levels read.
    Exhausted,
    /// An allocation was refused.
    Memory,
}

impl From<AllocError> for PlanFault {
    ghost from_gives = { λ _ e. e ≡ Memory };

    fn from(_: AllocError) -> Self {
        PlanFault::Memory
    }
}

impl<T: Drop> From<AllocFailed<T>> for PlanFault {
    ghost from_gives = { λ _ e. e ≡ Memory };

    fn from(_: AllocFailed<T>) -> Self {
        PlanFault::Memory
    }
}

impl From<PlanFault> for HamtFault {
    ghost from_gives = { λ fault e. e ≡ plan_fault fault };

    fn from(fault: PlanFault) -> Self {
        match fault {
            PlanFault::Exhausted => HamtFault::Exhausted,
            PlanFault::Memory => HamtFault::Memory,
        }
    }
}
