//! The block of an edit of the part at any path of a block, where that is a change within the item of one holder; else which holder's item
//! is replaced as a whole.
#![tactic(auto)]

mod along;
mod answer;
mod edit;
mod laws;

pub use along::spliced;
pub use answer::{Replaced, Spliced};
pub use edit::{PartEdit, change_of, node_of};
pub use laws::roots_are_viewed;
