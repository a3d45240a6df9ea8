//! The blocks of a HAMT (IPLD HashMap) as they are read in place: its nodes, their slots and buckets, and its root.
#![tactic(auto)]

mod beside;
mod bucket;
mod fault;
mod holding;
mod level;
mod node;
mod parts;
mod root;
mod slots;
mod spelled;
mod told;
mod view;
mod walk;

pub use bucket::Bucket;
pub use fault::HamtFault;
pub use level::{has_level, index, index_of};
pub use node::{known_node, node_of};
pub use parts::{child_in, map_bit, rises};
pub use root::root_of;
pub use slots::Slots;
pub use spelled::Spelled;
pub use told::next_entry;
pub use view::{NodeSlot, NodeView};
