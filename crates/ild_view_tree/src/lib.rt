//! Trees of pieces: the data for which a piece of a block stands, as a copy (IPLD Data Model).
#![tactic(auto)]

mod piece;
mod tree;

pub use piece::piece_tree;
