//! Edits in the data of a value: definitions of where they are seen, and laws as the contracts of functions without a body.
#![tactic(auto)]

mod laws;

pub use laws::{edits_are_one_change, one_pair_is_one_change};
