//! Steps in a block along a path of views: where the change of a part is one change of the block.
#![tactic(auto)]

mod along;
mod laws;
mod part;

pub use along::{LastHolder, last_holder, steps_along};
pub use laws::{along_is_lifted, edits_are_carried, edits_are_edited, edits_are_seen, steps_stand};
pub use part::part_steps;
