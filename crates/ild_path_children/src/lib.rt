//! The blocks on a key's way in a HAMT of which the key's entry is put or goes: each is put behind its children (IPLD HashMap,
//! "Element").
#![tactic(auto)]

mod laws;

pub use laws::{puts_leave_ways, ways_are_cut, ways_are_put};
