//! What a line asks of a store is answered: the value of a document is read or edited (IPLD Schemas, "typed nodes"; IPLD HashMap).
#![tactic(auto)]

mod asking;

pub use asking::ask;
