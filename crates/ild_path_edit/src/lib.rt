//! The block of an edit of the part at any path of a block.
#![tactic(auto)]

mod block;
mod item;
mod views;

pub use block::block_of_edit;
pub use views::{are_texts, holders};
