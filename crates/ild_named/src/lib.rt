//! Roots that name their schema: a map of the name of the value's type, the value, and a link to the block of the schema's text (IPLD
//! Schemas).
#![tactic(auto)]

mod laws;
mod parts;
mod write;

pub use laws::named_are_frames;
pub use parts::{NAMED_ROOM, NamedParts, named_parts};
pub use write::{named_block, schema_block};
