//! Pieces of a block, as what represents values of types: the data that a piece stands for, and their parts without a copy
//! (IPLD Schemas, "Representation Strategies").
#![tactic(auto)]

mod iterate;
mod laws;
mod scalar;
mod walk;

pub use iterate::{entries, entry, items};
pub use laws::answers_are_one;
pub use scalar::{boolean, bytes, int, is_null, is_null_there, kind, text};
pub use walk::MapEntries;
