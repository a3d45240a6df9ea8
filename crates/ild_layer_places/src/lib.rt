//! Where the parts of data stand: laws of ways, and the offset at which one ends.
#![tactic(auto)]

ghost use Rattle.ild_layer_places.specs.Ending.{FieldsEnd, PartsEnd};
ghost use Rattle.ild_layer_places.specs.Places.{PartsArePlaced, PartsAreOnto, PlacesAreShort};
ghost use Rattle.ild_layer_places.specs.Refusing.{RefusalsArePlaced};

mod head;
mod place;
mod way;

pub use place::place_of;
pub use way::Way;

/// A part stands where its way ends, or has no parts of its own, or is the whole without one entry.
pub fn parts_end()
    ensures { PartsEnd }
{}

/// The place of what is refused in a part is that of the part, and its place in the part.
pub fn parts_are_placed()
    ensures { PartsArePlaced }
{}

/// A field of a struct stands where its way ends, or has no parts of its own.
pub fn fields_end()
    ensures { FieldsEnd }
{}

/// A part of a piece stands there as its way says.
pub fn parts_are_onto()
    ensures { PartsAreOnto }
{}

/// The place of a refusal is that of the part, and the refusal's place in the part.
pub fn refusals_are_placed()
    ensures { RefusalsArePlaced }
{}

/// An offset in a piece is no longer than the longest block.
pub fn places_are_short()
    ensures { PlacesAreShort }
{}
