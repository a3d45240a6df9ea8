//! HAMTs that were found sound, by what they were read as and by the bytes of their roots, and nodes beneath roots, by their ids and by
//! the ways that lead to them.
#![tactic(auto)]

mod kind;
mod table;

pub use kind::{ReadAs, Seat};
pub use table::Known;
