//! One layer of a struct inside a block: which of its fields stand there, and as what, or why the data are none (IPLD
//! Schemas, "Struct Representation Strategies"). No memory is taken.
#![tactic(auto)]

mod field;
mod left;
mod map;
mod pairs;
mod part;
mod parts;
mod present;
mod read;
mod source;
mod step;
mod texts;
mod tuple;
mod written;

pub use part::Part;
pub use parts::StructParts;
pub use present::Present;
pub use read::layer;
