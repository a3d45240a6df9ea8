//! Where a document with a root block stands over a store, and what an answer to a line leaves of it: definitions and laws, and no code
//! (IPLD Schemas; DAG-CBOR).
#![tactic(auto)]

mod laws;

pub use laws::{held_are_standing, standing_are_at, still_replies, values_pass_on};
