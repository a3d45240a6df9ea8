//! Laws of paths in two pieces.
ghost use Rattle.ild_path_within.specs.WithinLaws.{EditsSplit, FaultsSplit, PartsAreSet, PartsOfParts, PathsSplit, WaysSplit};

/// A path leads where its second piece leads from the part at the end of its first; what is counted on its way is counted on the pieces.
pub fn paths_split()
    ensures leads { PathsSplit }
    ensures counts { WaysSplit }
{}

/// An edit beneath a part makes of the whole what it makes of the part, set in the whole, and is refused where it is refused there, at the
/// segment of the same place. A part that is there can always be set.
pub fn edits_split()
    ensures edits { EditsSplit }
    ensures faults { FaultsSplit }
    ensures sets { PartsAreSet }
    ensures parts { PartsOfParts }
{}
