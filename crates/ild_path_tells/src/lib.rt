//! What the place of a path tells of an edit there, as laws: whether the edit may be done, the slot, room and hole of the part, and whether
//! a HAMT around it has a trie with it (IPLD Schemas; IPLD HashMap).
#![tactic(auto)]

mod laws;

pub use laws::{faults_are_refusals, places_tell, places_tell_on};
