//! The pass over a typed value: the spelling of its representation goes into one buffer, with no tree between, and the nodes of its HAMTs
//! into a list (IPLD Schemas, "Representations"; IPLD HashMap).
#![tactic(auto)]

mod fronts;
mod lists;
mod maps;
mod pass;
mod structs;
mod unions;

pub use pass::add;
