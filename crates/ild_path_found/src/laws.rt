//! Laws of the data in which HAMTs stand.
ghost use Rattle.ild_path_found.specs.Laws.{PartsStandInData};

/// The part of a front at a segment, outside of an Any, is represented by a part of the front's data, and fits in the room that these leave.
pub fn parts_stand_in_data()
    ensures { PartsStandInData }
{}
