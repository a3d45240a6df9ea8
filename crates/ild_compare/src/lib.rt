//! The trees of blocks of two documents over two stores, compared in step: the first id under which the stores hold different bytes
//! (IPLD Schemas; IPLD HashMap).
#![tactic(auto)]

mod compare;
mod compared;
mod fetch;
mod laws;
mod spots;
mod walk;

pub use compare::compare_trees;
pub use compared::Compared;
pub use ild_open_parts::OpenFault;
pub use laws::parted_values_collide;
