//! The nodes beneath the roots of HAMTs, as they are gone over without being kept: reading one, and judging what stands in it.
#![tactic(auto)]

mod entry;
mod get;
mod node;
mod place;
mod way;
mod weigh;

pub use entry::{entry_fits, no_trie};
pub use get::block_of;
pub use node::node_in;
pub use place::fits;
pub use way::longer;
