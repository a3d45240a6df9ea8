//! A session over a document whose lines go on behind typed links (IPLD Schemas, "Links"; IPLD HashMap; DAG-CBOR).
#![tactic(auto)]

mod asking;
mod linked;
mod looking;
mod obeying;
mod session;

pub use linked::LinkedDocument;
