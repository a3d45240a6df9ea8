//! One edit of a document of a type: a part is set, inserted or deleted at a path (IPLD Schemas, "typed nodes"; IPLD HashMap).
#![tactic(auto)]

mod bringing;
mod editing;
mod erasing;
mod faults;
mod part;
mod putting;
mod rooting;

pub use editing::{edit, edit_naming};
pub use ild_path_place::Verb;
