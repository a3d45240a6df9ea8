//! Texts with delimiters: that a text has parts is told by cutting it from the left (IPLD Schemas, "stringjoin", "stringpairs").
#![tactic(auto)]

mod laws;

pub use laws::cuts_are_splits;
