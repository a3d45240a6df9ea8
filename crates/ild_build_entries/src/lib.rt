//! The entries of a HAMT as they are written: spelled into one buffer, with a mark for each, and the root map over them (IPLD HashMap).
#![tactic(auto)]

mod hamt;
mod nodes;

pub use hamt::{MarkedEntries, add_root, end_entry, no_entries};
pub use nodes::Nodes;
