//! Walks over the entries of whole HAMTs (IPLD HashMap), which check the blocks that they read.
#![tactic(auto)]

mod check;
mod due;
mod entry;
mod fetch;
mod laws;
mod list;
mod read;
mod row;
mod step;
mod walker;

pub use check::check_tree;
pub use laws::{given_is_trie, nodes_are_got_once, nodes_are_the_tries};
pub use list::walk;
pub use row::Row;
pub use walker::Walker;
