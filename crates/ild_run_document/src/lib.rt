//! A session over a document of any schema: the lines of a script read its value and edit it, and each reply is the one that is due on
//! the plain value (IPLD Schemas, "typed nodes"; IPLD HashMap).
#![tactic(auto)]

mod begun;
mod document;
mod inside;
mod lines;
mod session;

pub use document::Document;
