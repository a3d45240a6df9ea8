//! A script over named heads, on the values of a type of a schema that stand in a store (IPLD Schemas, "typed nodes"; IPLD HashMap).
#![tactic(auto)]

mod running;

pub use running::run_heads;
