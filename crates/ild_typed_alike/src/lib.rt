//! Values that differ in their links alone, each link being as long as the other's: definitions and laws, and no code (IPLD Schemas,
//! "Links"; IPLD HashMap).
#![tactic(auto)]

ghost use Rattle.ild_typed_alike.specs.Laws.{AlikeAreAsLong, AlikeMeetAsMany};

/// Their blocks are as many, each as long.
pub fn alike_are_as_long()
    ensures { AlikeAreAsLong }
{}

/// What is counted on the way of a path is the same.
pub fn alike_meet_as_many()
    ensures { AlikeMeetAsMany }
{}
