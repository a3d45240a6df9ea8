//! Reads along paths across typed links, from an open document over a store (IPLD Schemas, "Links").
#![tactic(auto)]

mod reading;

pub use reading::tell_across;
