//! Why there is no new root block, as a refusal.
ghost use Rattle.std.specs.Prelude.{◌≡◌};
ghost use Rattle.ild_data.specs.Bytes.{AreBytes};
ghost use Rattle.ild_run_edit.specs.inside.Moves.{built_fault, done_fault};
ghost use Rattle.ild_run_edit.specs.Naming.{NotesBuilt, NotesDone};

use ild_build_blocks::BuildFault;
use ild_data::BlockId;
use ild_path::EditFault;
use ild_script::No;

// The items of a slice of bytes are bytes; a caller that needs the fact makes this call, which does no work.
fn are_bytes(bytes: &[u8])
    ensures { AreBytes bytes.now }
{}

/// Why there is no new root block; the id of a clash is noted.
pub(crate) fn done_fault(fault: &EditFault, clash: &mut Option<BlockId>) -> No
    ensures same { result ≡ done_fault fault.now }
    ensures notes { NotesDone fault.now clash.new }
{
    match fault {
        EditFault::Exhausted => No::Exhausted,
        EditFault::NoKey => No::Path,
        EditFault::Size => No::Size,
        EditFault::Store => No::Store,
        EditFault::Clash { id, kept, new } => {
            are_bytes(kept.as_slice());
            are_bytes(new.as_slice());
            *clash = Some(*id);
            No::Clash
        }
        EditFault::Memory => No::Memory,
    }
}

/// Why a part has no blocks; the id of a clash is noted.
pub(crate) fn built_fault(fault: &BuildFault, clash: &mut Option<BlockId>) -> No
    ensures same { result ≡ built_fault fault.now }
    ensures notes { NotesBuilt fault.now clash.new }
{
    match fault {
        BuildFault::Exhausted => No::Exhausted,
        BuildFault::Size => No::Size,
        BuildFault::Store => No::Store,
        BuildFault::Clash { id, .. } => {
            *clash = Some(*id);
            No::Clash
        }
        BuildFault::Memory => No::Memory,
    }
}
