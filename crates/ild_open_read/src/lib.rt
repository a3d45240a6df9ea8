//! Reading the value that a piece of a block represents, over a store (IPLD Schemas).
#![tactic(auto)]

mod form;
mod passing;
mod reader;
mod reading;
mod value;

pub use ild_open_parts::OpenFault;
pub use value::read;
