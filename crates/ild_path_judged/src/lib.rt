//! The judgement of a changed value, from the place of its edit and the part that it brings: laws, and no code (IPLD Schemas,
//! "Representation Strategies"; IPLD HashMap).
#![tactic(auto)]

mod laws;

pub use laws::{changes_are_judged_from_their_place, changes_are_refused_in_order};
