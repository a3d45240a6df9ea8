//! Laws of what places tell.
ghost use Rattle.ild_path_tells.specs.Tells.{FaultsAreRefusals, PlacesTell, PlacesTellOn};

/// What is asked of an edit at the end of a path, its place tells.
pub fn places_tell()
    ensures { PlacesTell }
{}

/// It tells the same of a store that holds more.
pub fn places_tell_on()
    ensures { PlacesTellOn }
{}

/// Where there is no place, the fault is the refusal of an edit there.
pub fn faults_are_refusals()
    ensures { FaultsAreRefusals }
{}
