//! Opening roots that name their schema: such a root is described, and the whole tree of the value beneath it is read and checked (IPLD
//! Schemas; IPLD HashMap).
#![tactic(auto)]

mod described;
mod describing;
mod getting;
mod opening;

pub use described::Described;
pub use describing::describe;
pub use ild_open_read::OpenFault;
pub use opening::open_named;
