//! Whether an edit of the part at a segment can be done, told from the view of the holder in which the segment is sought: what may be
//! set there, what may be inserted, and what may be deleted (IPLD Schemas, "typed nodes").
#![tactic(auto)]

mod delete;
mod form;
mod insert;
mod key;
mod named;
mod set;
mod there;

pub use delete::{Refusal, refusal_to_delete};
pub use insert::slot_to_insert;
pub use key::key_fits;
pub use set::slot_to_set;
