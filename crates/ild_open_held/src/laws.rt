//! Laws of what data split into.
ghost use Rattle.ild_open_held.specs.Entries.{HamtsSplit};
ghost use Rattle.ild_open_held.specs.Laws.{ListsSplit, MapsSplit, StructsSplit, UnionsSplit};
ghost use Rattle.ild_open_held.specs.Leaves.{LeavesAreHeld, NullIsHeld};
ghost use Rattle.ild_open_held.specs.Roots.{HeldStand, StandingAreHeld};

/// Data of a list represent a value exactly where its elements do.
pub fn lists_split()
    ensures { ListsSplit }
{}

/// Data of a map in one block represent a value exactly where the values of its entries do.
pub fn maps_split()
    ensures { MapsSplit }
{}

/// Data of a struct represent a value exactly where its fields do.
pub fn structs_split()
    ensures { StructsSplit }
{}

/// Data of a union represent a value exactly where its member does.
pub fn unions_split()
    ensures { UnionsSplit }
{}

/// The root of a HAMT represents a value exactly where the nodes beneath it are held and the values of its entries are represented.
pub fn hamts_split()
    ensures { HamtsSplit }
{}

/// The value that a held block represents stands under the block's id.
pub fn held_stand()
    ensures { HeldStand }
{}

/// And of a value that stands the root block is held and represents it.
pub fn standing_are_held()
    ensures { StandingAreHeld }
{}

/// Data of a type whose values have no parts represent the value that their layer is.
pub fn leaves_are_held()
    ensures { LeavesAreHeld }
{}

/// Null represents null, where it may stand.
pub fn null_is_held()
    ensures { NullIsHeld }
{}
