//! What stands beneath a block of a typed value, told by the block and the kind of its place: definitions and laws, and no code (IPLD
//! Schemas; IPLD HashMap).
#![tactic(auto)]

ghost use Rattle.ild_beneath.specs.Laws.{ChildrenArePlaces, DataAreRead};

/// What the blocks of a value tell of their children are the places of the value.
pub fn children_are_places()
    ensures { ChildrenArePlaces }
{}

/// The data that a block spells are those that are read from it.
pub fn data_are_read()
    ensures { DataAreRead }
{}
