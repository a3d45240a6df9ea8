//! Opening roots: the whole tree of a typed value is read from a store and checked, and the value at a view is loaded (IPLD
//! Schemas; IPLD HashMap).
#![tactic(auto)]

mod block_at;
mod loading;
mod opening;

pub use block_at::BlockAt;
pub use ild_open_read::OpenFault;
pub use loading::load;
pub use opening::{open_root, open_value};
