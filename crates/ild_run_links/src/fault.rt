//! Why one tree isn't read or written.
ghost use Rattle.std.specs.Prelude.{◌≡◌, ◌≤◌};
ghost use Rattle.ild_node_slots.specs.Faults.{IsReadFault};
ghost use Rattle.ild_run_links.specs.inside.Faults.{AreClashBytes, edit_fault, hamt_fault, lacks_after, open_fault, path_fault, tree_err};
ghost use Rattle.ild_run_links.specs.declared.fault.TreeFault.TheVariants.{Memory};

use ild_data::{BlockId, Octets};
use ild_links::TreeErr;
use ild_node::HamtFault;
use ild_open::OpenFault;
use ild_path::{EditFault, PathFault};
use std::alloc::{AllocError, AllocFailed};

/// Why one tree isn't read or written: its blocks aren't there or aren't such a tree, the store failed, other bytes are kept under the
/// id of a new block, or memory is wanting.
#[derive(Drop)]
pub(crate) enum TreeFault {
    Block,
    Store,
    Clash(BlockId, Octets, Octets),
    Memory,
}

impl From<AllocError> for TreeFault {
    ghost from_gives = { λ _ e. e ≡ Memory };

    fn from(_: AllocError) -> Self {
        TreeFault::Memory
    }
}

impl<T: Drop> From<AllocFailed<T>> for TreeFault {
    ghost from_gives = { λ _ e. e ≡ Memory };

    fn from(_: AllocFailed<T>) -> Self {
        TreeFault::Memory
    }
}

/// The fault of a way through HAMTs.
pub(crate) fn of_hamt(fault: &HamtFault) -> TreeFault
    requires { IsReadFault fault.now }
    ensures { result ≡ hamt_fault fault.now }
{
    match fault {
        HamtFault::Block { .. } => TreeFault::Block,
        HamtFault::Store => TreeFault::Store,
        HamtFault::Memory => TreeFault::Memory,
        HamtFault::Exhausted | HamtFault::Clash { .. } | HamtFault::Size | HamtFault::NoKey =>
            unreachable!(),
    }
}

/// The fault of opening a root.
pub(crate) fn of_open(fault: &OpenFault) -> TreeFault
    ensures { result ≡ open_fault fault.now }
{
    match fault {
        OpenFault::Block { .. } => TreeFault::Block,
        OpenFault::Store => TreeFault::Store,
        OpenFault::Memory => TreeFault::Memory,
    }
}

/// The fault of locating a place.
pub(crate) fn of_path(fault: &PathFault) -> TreeFault
    ensures { result ≡ path_fault fault.now }
{
    match fault {
        PathFault::Path { .. } | PathFault::Mismatch | PathFault::Block { .. } => TreeFault::Block,
        PathFault::Store => TreeFault::Store,
        PathFault::Memory => TreeFault::Memory,
    }
}

/// The fault of an edit.
pub(crate) fn of_edit(fault: EditFault) -> TreeFault
    ensures same { result ≡ edit_fault fault }
    ensures bytes { AreClashBytes result }
{
    match fault {
        EditFault::Exhausted | EditFault::NoKey | EditFault::Size => TreeFault::Block,
        EditFault::Store => TreeFault::Store,
        EditFault::Clash { id, kept, new } => {
            // They do no work: their clauses say that both are bytes.
            let _kept = kept.as_slice();
            let _new = new.as_slice();
            TreeFault::Clash(id, kept, new)
        }
        EditFault::Memory => TreeFault::Memory,
    }
}

/// The fault of the tree with this id. A tree that isn't there is counted.
pub(crate) fn told(fault: TreeFault, id: &BlockId, lacks: &mut u64) -> TreeErr
    ensures same { result ≡ tree_err id.now fault }
    ensures counted { lacks.new ≡ lacks_after lacks.old fault }
    ensures grows { lacks.old ≤ lacks.new }
{
    match fault {
        TreeFault::Block => {
            *lacks = lacks.saturating_add(1);
            TreeErr::Block(*id)
        }
        TreeFault::Store => TreeErr::Store,
        TreeFault::Clash(at, kept, new) => TreeErr::Clash(at, kept, new),
        TreeFault::Memory => TreeErr::Memory,
    }
}
