//! Laws of rooms.
ghost use Rattle.ild_path_room.specs.RoomLaws.{DeletedFits, BroughtFits};

/// What is set or inserted at a path fits in what the holders on it leave of a room, with its key, exactly where the changed value
/// fits in the room. A value from which a part is deleted fits where it did.
pub fn rooms_are_left_along_the_path()
    ensures brought { BroughtFits }
    ensures deleted { DeletedFits }
{}
