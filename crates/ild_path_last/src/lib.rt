//! What an edit of the last holder of a path changes in the holder's item: which item or entry of it comes, goes or is replaced, or
//! that the holder is replaced as a whole (IPLD Schemas, "Representations").
#![tactic(auto)]

mod between;
mod change;
mod edit;
mod items;
mod keys;
mod map;
mod named;
mod new;
mod seat;
mod structs;

pub use change::LastChange;
pub use edit::{delete_change, insert_change, set_change};
