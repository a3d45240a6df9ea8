//! Laws of places.
ghost use Rattle.ild_path.specs.PlaceLaws.{PlacesStay};

/// A place stays what it is over a store that grows.
pub fn places_stay()
    ensures { PlacesStay }
{}
