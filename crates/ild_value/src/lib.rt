//! Values of a schema's types: those that trees mean (IPLD Schemas, "type-level representation").
#![tactic(auto)]

mod entry;
mod fault;
mod meaning;
mod part;
mod read;
mod scalar;

pub use fault::{ShownErr, ShownRule};
pub use ild_schema::Val;
pub use ild_value_shown::{copy, shown};
pub use meaning::{from_shown, of_shown};
