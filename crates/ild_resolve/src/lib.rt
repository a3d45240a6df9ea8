//! From a syntax tree to the table of types (IPLD Schemas): names become numbers, and the faults of names are found.
#![tactic(auto)]

mod body;
mod circular;
mod count;
mod error;
mod form;
mod laws;
mod layout;
mod reference;
mod resolving;
mod survey;
mod table;
mod word;

pub use error::ResolveErr;
pub use laws::{events_rise, faultless_have_tables, one_result};
pub use resolving::resolve;
