//! The blocks of a typed value: its representation, written in one pass, and the nodes of its HAMTs, put over a store.
#![tactic(auto)]

mod block;
mod fault;
mod plan;
mod planned;

pub use block::build;
pub use fault::BuildFault;
