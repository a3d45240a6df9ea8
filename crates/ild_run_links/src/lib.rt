//! Trees of blocks that typed links join, over a store: where a path stops in one, and a link in it set to the root of another (IPLD
//! Schemas, "Links"; IPLD HashMap; DAG-CBOR).
#![tactic(auto)]

mod behind;
mod fault;
mod linking;
mod relinking;
mod stopping;
mod trees;

pub use trees::LinkedDocs;
