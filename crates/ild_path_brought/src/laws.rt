//! Laws of the parts that edits bring.
ghost use Rattle.ild_path_brought.specs.Laws.{LongBrought, NodesOfBrought, PlacesOfBrought};

/// Where an edit sets or inserts a part, the places in the part are places in the changed value, and the nodes of the part's HAMTs are
/// nodes of it.
pub fn brought_parts_stand()
    ensures places { PlacesOfBrought }
    ensures nodes { NodesOfBrought }
{}

/// Where the part is longer than a block may be, a block of the changed value is too long: its own, or that of a node of a HAMT in it.
pub fn long_parts_stay_long()
    ensures { LongBrought }
{}
