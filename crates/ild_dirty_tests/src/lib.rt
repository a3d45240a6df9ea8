//! Tests of public calls on batches.
#![tactic(auto, using(ild_edges::proofs::Later::laters))]

#[cfg(test)]
mod flushed;
#[cfg(test)]
mod held;
mod links;

pub use links::{Links, asks_once, put_twice, puts_nothing};
