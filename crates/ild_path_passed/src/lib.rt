//! What an edit passes on of a value's places, that is of its blocks as they stand beneath one another: laws, and no code (IPLD
//! Schemas; IPLD HashMap).
#![tactic(auto)]

mod laws;

pub use laws::{edits_pass, values_pass};
