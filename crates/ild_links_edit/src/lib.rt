//! An edit along a path that crosses typed links (IPLD Schemas, "Links"): done in the tree in which the path ends, whose new root is
//! carried up to the first tree.
#![tactic(auto)]

mod across;
mod changing;
mod ending;
mod finding;
mod raising;

pub use across::edit_across;
