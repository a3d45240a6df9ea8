//! That what a proof says of a path holds in each value under its root, stored or not, or blocks collide: definitions, and laws as the contracts of functions without a body (IPLD HashMap).
#![tactic(auto)]

mod laws;

pub use laws::{proofs_hold, values_answer};
