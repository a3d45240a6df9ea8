//! The commit of a batch over a document: what stands beneath the blocks of its value is told by the blocks (IPLD HashMap, "Element").
#![tactic(auto)]

mod committing;
mod trees;
mod types;

pub use committing::commit;
pub use trees::trees_stand;
pub use types::ByTypes;
