//! What it is for a store to hold the value that data represent: definitions and laws, and no code (IPLD Schemas; IPLD HashMap).
#![tactic(auto)]

mod laws;

pub use laws::{
    hamts_split, held_stand, leaves_are_held, lists_split, maps_split, null_is_held,
    standing_are_held, structs_split, unions_split,
};
