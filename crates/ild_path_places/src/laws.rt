//! Laws of places along a path.
ghost use Rattle.ild_path_places.specs.Laws.{ChildrenOfParts, PlacesOfParts};

/// Each place in the part to which a path leads is a place in the value.
pub fn places_of_parts()
    ensures { PlacesOfParts }
{}

/// What a block has as children at a place in the part, it has at a place in the value.
pub fn children_of_parts()
    ensures { ChildrenOfParts }
{}
