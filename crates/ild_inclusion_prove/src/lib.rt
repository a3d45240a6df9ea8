//! Proofs of what a path leads to in the value of a root block, made over a store: the root's block and the nodes of HAMTs on the path's way, as `ild_inclusion::verify` takes them (IPLD HashMap; IPLD Schemas).
#![tactic(auto)]

mod adding;
mod entry;
mod proving;
mod walking;

pub use proving::prove;
