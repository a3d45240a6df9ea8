//! Proofs of what stands at a path in the value under a root, made over a store and written as DAG-JSON.
#![tactic(auto)]

mod fault;
mod printing;
mod proving;

pub use fault::ProveFault;
pub use proving::prove;
