//! The commit of a batch over a document: the blocks of its value that the batch holds are put (IPLD HashMap, "Element").
#![tactic(auto)]

mod along;

pub use along::commit_along;
