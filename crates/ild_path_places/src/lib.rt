//! The places in the part to which a path leads are places in the whole value: laws, and no code (IPLD Schemas; IPLD HashMap).
#![tactic(auto)]

mod laws;

pub use laws::{children_of_parts, places_of_parts};
