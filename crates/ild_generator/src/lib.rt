//! The generator of large maps from a seed: its schema, the numbers that it draws, and the fold over a plain map that it is (a linear
//! congruential generator; IPLD Schemas, "HashMap").
#![tactic(auto)]

mod laws;
mod numbers;
mod table;

pub use laws::{entries_are_plain, schema_is_its_text, steps_add_blocks, steps_are_edits};
pub use numbers::{is_deletion, key_of, next};
pub use table::schema;
