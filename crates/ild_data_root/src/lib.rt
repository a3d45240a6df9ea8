//! The ids of blocks, read from the texts of their CIDs (multiformats, CIDv1).
#![tactic(auto)]

mod root;

pub use root::root_of_text;
