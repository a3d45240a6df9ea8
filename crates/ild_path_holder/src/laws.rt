//! Laws of steps along a path.
ghost use Rattle.ild_path_holder.specs.Along.{AlongIsLifted};
ghost use Rattle.ild_path_holder.specs.Edited.{ChangesAreEdited, EditsAreEdited};
ghost use Rattle.ild_path_holder.specs.Edits.{EditsAreCarried, EditsAreSeen};
ghost use Rattle.ild_path_holder.specs.Standing.{StepsStand};

/// The change of the whole that is lifted from the last holder of a path is what the steps along the path make of it.
pub fn along_is_lifted()
    ensures { AlongIsLifted }
{}

/// So it is of each edit that the table allows, where the changed value stands in a block.
pub fn edits_are_carried()
    ensures { EditsAreCarried }
{}

/// The steps along a path lead to a part of the block's data, up to a holder that is replaced whatever changes in it.
pub fn steps_stand()
    ensures { StepsStand }
{}

/// Each holder on the way of such an edit becomes what stands in a block, so the change of the whole is where the steps say: in the
/// item to which all of them lead, or as a holder that is replaced.
pub fn edits_are_seen()
    ensures { EditsAreSeen }
{}

/// The data of the value that an edit makes are those of the old value with one change: what changes in the last holder's item, at the
/// end of the steps to it, or the item of a holder that is replaced. So it is of each edit that the table allows, and of each that
/// makes a changed value.
pub fn edits_are_edited()
    ensures each { EditsAreEdited }
    ensures changes { ChangesAreEdited }
{}
