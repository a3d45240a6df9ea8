//! The roots of HAMTs in a store and walks over them: definitions and laws, and no code (IPLD HashMap).
#![tactic(auto)]

mod laws;

pub use laws::{entries_are_given, rows_are_entries};
