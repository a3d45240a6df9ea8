//! Laws of ways.
ghost use Rattle.ild_path_children.specs.Ways.{PutsLeaveWays, WaysAreCut, WaysArePut};

/// Where an entry of a HAMT is put, each block on its way stands at a place whose children are held or are the next on the way.
pub fn ways_are_put()
    ensures { WaysArePut }
{}

/// So it is where the entry goes.
pub fn ways_are_cut()
    ensures { WaysAreCut }
{}

/// Where the blocks of such a way are put from the bottom up, each that came has its children held, wherever the puts stop.
pub fn puts_leave_ways()
    ensures { PutsLeaveWays }
{}
