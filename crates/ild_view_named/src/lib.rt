//! Root blocks that name their schema, checked against a type, each with its id (IPLD Schemas, "typed nodes").
#![tactic(auto)]

mod doc;
mod of;

pub use doc::NamedDoc;
