//! The blocks of a HAMT (IPLD HashMap), written: its nodes, their buckets and its root. What reads them in place is handed on.
#![tactic(auto)]

mod changed;
mod draft;
mod hashed;
mod hold;
mod keyed;
mod laws;
mod placed;
mod row;
mod rows;
mod write;

pub use changed::write_changed;
pub use draft::Draft;
pub use hashed::HashedEntry;
pub use hold::{NewHold, NewSlot};
pub use ild_node_slots::{
    Bucket, HamtFault, NodeSlot, NodeView, Slots, Spelled, child_in, has_level, index, index_of,
    known_node, map_bit, next_entry, node_of, rises, root_of,
};
pub use keyed::Keyed;
pub use laws::{one_node, written_are_read};
pub use row::Row;
pub use rows::Rows;
pub use write::{add_entry, write_node, write_root, write_slots};
