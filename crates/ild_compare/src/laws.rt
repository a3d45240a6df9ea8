//! The law of two values with one root.
ghost use Rattle.ild_compare.specs.Laws.{PartedValuesCollide};

/// Of two values with one root, each of which stands in a store, a block of the one and a block of the other collide.
pub fn parted_values_collide()
    ensures { PartedValuesCollide }
{}
