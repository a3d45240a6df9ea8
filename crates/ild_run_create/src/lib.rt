//! A value of a schema's type, created from its DAG-JSON: read, judged, written as its block, and put.
#![tactic(auto)]

mod block;
mod creating;
mod fault;
mod laws;

pub use creating::create;
pub use fault::{CreateFault, Refusal};
pub use laws::one_outcome;
