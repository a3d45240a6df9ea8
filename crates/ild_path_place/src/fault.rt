//! Why a path leads to no place.
ghost use Rattle.std.specs.Prelude.{◌≡◌};
ghost use Rattle.ild_node_slots.specs.Faults.{IsReadFault};
ghost use Rattle.ild_path_place.specs.Faults.{hamt_fault};
ghost use Rattle.ild_path_place.specs.declared.fault.PathFault.TheVariants.{Memory};

use ild_cbor::BlockWhy;
use ild_data::BlockId;
use ild_node::HamtFault;
use std::alloc::{AllocError, AllocFailed};

/// Why a path leads to no place.
#[derive(Clone, Copy, Debug, PartialEq, Eq)]
pub enum PathFault {
    /// The segment with this number leads nowhere, or nothing may be done there.
    Path { k: usize },
    /// What is there can't be deleted.
    Mismatch,
    /// The block under an id isn't held, or isn't what has to stand there.
    Block { id: BlockId, why: BlockWhy },
    /// The store failed.
    Store,
    /// Memory is wanting.
    Memory,
}

impl From<AllocError> for PathFault {
    ghost from_gives = { λ _ e. e ≡ Memory };

    fn from(_: AllocError) -> Self {
        PathFault::Memory
    }
}

impl<T: Drop> From<AllocFailed<T>> for PathFault {
    ghost from_gives = { λ _ e. e ≡ Memory };

    fn from(_: AllocFailed<T>) -> Self {
        PathFault::Memory
    }
}

/// The fault of entering HAMTs.
pub(crate) fn of_hamt(fault: &HamtFault) -> PathFault
    requires { IsReadFault fault.now }
    ensures { result ≡ hamt_fault fault.now }
{
    match fault {
        HamtFault::Block { id, why } => PathFault::Block { id: *id, why: *why },
        HamtFault::Store => PathFault::Store,
        HamtFault::Memory => PathFault::Memory,
        HamtFault::Exhausted | HamtFault::Clash { .. } | HamtFault::Size | HamtFault::NoKey =>
            unreachable!(),
    }
}
