//! The nodes of HAMTs on the way of a path, and paths in one block: laws (IPLD HashMap).
#![tactic(auto)]

mod laws;

pub use laws::ways_of_paths;
