//! The part that an edit brings stands in the changed value: laws, and no code (IPLD Schemas; IPLD HashMap).
#![tactic(auto)]

mod laws;

pub use laws::{brought_parts_stand, long_parts_stay_long};
