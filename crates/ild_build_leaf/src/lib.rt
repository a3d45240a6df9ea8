//! The pieces of a representation that hold no other value: leaves, texts, keys, counts and discriminants, the prefix of bytes, and which
//! fields of a struct are written, in which order (IPLD Schemas, "Representations").
#![tactic(auto)]

mod hex;
mod leaf;
mod order;

pub use hex::{add_hex, behind_head};
pub use leaf::{Tag, add_as_text, add_count, add_key, add_leaf, add_tag};
pub use order::{count_before, kept_at, present, written};
