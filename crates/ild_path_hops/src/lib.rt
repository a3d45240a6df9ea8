//! The HAMTs on the way of a path, from the root inward: what an edit beneath them keeps of each (IPLD HashMap).
#![tactic(auto)]

mod hop;
mod laws;

pub use hop::Hop;
pub use laws::hops_lead;
