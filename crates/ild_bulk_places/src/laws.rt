//! Laws of plans.
ghost use Rattle.ild_bulk_places.specs.Following.{PlansFollowPlaces};
ghost use Rattle.ild_bulk_places.specs.Leaving.{PutsLeavePlaces};

/// In the plan of a HAMT each block stands behind its children at one of its places, where those in the values of its entries stand before it.
pub fn plans_follow_places()
    ensures { PlansFollowPlaces }
{}

/// Where blocks in such an order are put, each that came has its children held, wherever the puts stop.
pub fn puts_leave_places()
    ensures { PutsLeavePlaces }
{}
