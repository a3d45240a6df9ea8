//! The place of a value at which a path ends, through the HAMTs on it: what stands there, and what an edit there may bring (IPLD Schemas;
//! IPLD HashMap).
#![tactic(auto)]

mod ending;
mod fault;
mod hole;
mod inner;
mod key;
mod locating;
mod parts;
mod place;
mod refusal;
mod room;
mod verb;
mod viewing;

pub use fault::PathFault;
pub use locating::locate;
pub use parts::Parts;
pub use place::{End, Place};
pub use verb::Verb;
