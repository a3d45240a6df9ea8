//! Why nothing is told of a part.
ghost use Rattle.std.specs.Prelude.{◌≡◌};
ghost use Rattle.ild_node_slots.specs.Faults.{IsReadFault};
ghost use Rattle.ild_run_follow.specs.inside.Faults.{hamt_fault, open_fault};
ghost use Rattle.ild_run_follow.specs.declared.fault.ReadFault.TheVariants.{Memory};

use ild_cbor::BlockWhy;
use ild_data::BlockId;
use ild_hamt::HamtFault;
use ild_open::OpenFault;
use std::alloc::{AllocError, AllocFailed};

/// Why nothing is told of a part.
#[derive(Clone, Copy, Debug, PartialEq, Eq)]
pub enum ReadFault {
    /// The path leads nowhere, or to what has no such parts.
    Path,
    /// The block under an id isn't held, or isn't what has to stand there.
    Block { id: BlockId, why: BlockWhy },
    /// The store failed.
    Store,
    /// Memory is wanting.
    Memory,
}

impl From<AllocError> for ReadFault {
    ghost from_gives = { λ _ e. e ≡ Memory };

    fn from(_: AllocError) -> Self {
        ReadFault::Memory
    }
}

impl<T: Drop> From<AllocFailed<T>> for ReadFault {
    ghost from_gives = { λ _ e. e ≡ Memory };

    fn from(_: AllocFailed<T>) -> Self {
        ReadFault::Memory
    }
}

/// The fault of a descent in a HAMT.
pub(crate) fn of_hamt(fault: &HamtFault) -> ReadFault
    requires { IsReadFault fault.now }
    ensures { result ≡ hamt_fault fault.now }
{
    match fault {
        HamtFault::Block { id, why } => ReadFault::Block { id: *id, why: *why },
        HamtFault::Store => ReadFault::Store,
        HamtFault::Memory => ReadFault::Memory,
        HamtFault::Exhausted | HamtFault::Clash { .. } | HamtFault::Size | HamtFault::NoKey =>
            unreachable!(),
    }
}

/// The fault of loading a value.
pub(crate) fn of_open(fault: &OpenFault) -> ReadFault
    ensures { result ≡ open_fault fault.now }
{
    match fault {
        OpenFault::Block { id, why } => ReadFault::Block { id: *id, why: *why },
        OpenFault::Store => ReadFault::Store,
        OpenFault::Memory => ReadFault::Memory,
    }
}
