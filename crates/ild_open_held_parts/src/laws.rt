//! Laws of the parts of values that a store holds.
ghost use Rattle.ild_open_held_parts.specs.Laws.{OneIsHeld, PartsAreHeld, PathsLead};

/// A part of a value that is held is held.
pub fn parts_are_held()
    ensures { PartsAreHeld }
{}

/// A path leads in the front of a value that is held where it leads in the value, as far as the first HAMT.
pub fn paths_lead()
    ensures { PathsLead }
{}

/// Data represent one value at most that is held.
pub fn one_is_held()
    ensures { OneIsHeld }
{}
