//! Root blocks that were checked against a type, each with its id (IPLD Schemas, "typed nodes").
#![tactic(auto)]

mod doc;
mod fault;
mod of;

pub use doc::Doc;
pub use fault::DocErr;
