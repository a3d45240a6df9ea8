//! The way of a path inward, from block to block, through the HAMTs on it (IPLD Schemas; IPLD HashMap).
#![tactic(auto)]

mod copy;
mod halt;
mod inward;
mod level;

pub use halt::{Halt, halt_in};
pub use inward::{Inward, block_under, go_inward};
