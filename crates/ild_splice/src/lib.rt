//! The five changes of a tree, each made on the bytes of its block: one span is written anew, and all else is copied as it stands (DAG-CBOR).
#![tactic(auto)]

mod change;
mod cut;
mod entry;
mod error;
mod laws;
mod piece;
mod size;
mod write;

pub use change::{
    insert_entry, insert_item, insert_pair, remove_entry, remove_item, replace, replace_with,
};
pub use entry::entries_around;
pub use error::SpliceErr;
pub use laws::{changes_stay_within, nodes_are_at_places};
pub use size::{head_size, text_size};
