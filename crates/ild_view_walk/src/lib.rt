//! The walk over a piece of a block by the types of a schema: each piece is opened by itself, and then its parts in order (IPLD Schemas, "typed nodes").
#![tactic(auto)]

mod any;
mod check;
mod fault;
mod hamt;
mod key_text;
mod list;
mod map;
mod opening;
mod pairs;
mod refusal;
mod scalar;
mod stack;
mod structs;
mod union;
mod walk;

pub use check::check_item;
pub use fault::ViewErr;
pub use key_text::{check_key, fits_text, is_text};
