//! Where the change of a part is seen in a block, by the steps to the part: at which item, or at which holder, that is replaced
//! as a whole.
#![tactic(auto)]

mod along;
mod node;
mod touch;

pub use along::replaced;
pub use node::{node_along, part_of};
pub use touch::Touch;
