//! Laws of fronts.
ghost use Rattle.ild_typed_fronts.specs.FrontLaws.{EditsOfFronts, FrontsAreFronts, FrontsAreOne, FrontsRepresent, PartsOfFronts, PathsOfFronts, TablesOfFronts, WholesOfFronts};

/// A front has the data of its value, fits where the value does, and is the one front of these data.
pub fn fronts_represent()
    ensures same { FrontsRepresent }
    ensures fits { FrontsAreFronts }
    ensures one { FrontsAreOne }
{}

/// The parts of the front of what is no HAMT are the fronts of its parts, along each path in one block, and the table of edits allows of
/// it what it allows of the value.
pub fn fronts_have_parts()
    ensures parts { PartsOfFronts }
    ensures tables { TablesOfFronts }
    ensures paths { PathsOfFronts }
{}

/// An edit in one block that brings the front of its part makes of the front of a value the front of what the edit makes of the value.
pub fn fronts_are_edited()
    ensures wholes { WholesOfFronts }
    ensures edits { EditsOfFronts }
{}
