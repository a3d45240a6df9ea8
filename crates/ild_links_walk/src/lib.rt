//! The walk of a path across typed links, from an open document over a store, and the tree in which it ends (IPLD Schemas, "Links").
#![tactic(auto)]

mod last;
mod walking;

pub use last::{crossed, open_last};
pub use walking::walk;
