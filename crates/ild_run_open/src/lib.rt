//! Where a script starts: the document of a value that stands under a block id, or of the empty map or list, whose block is put.
#![tactic(auto)]

mod empty;
mod opening;
mod start;

pub use opening::open;
pub use start::{Start, StartFault};
