//! The steps from a holder's item in a block to the item of its part, form by form (IPLD Schemas, "Representations"): where the
//! change of a part is one change of the block.
#![tactic(auto)]

mod any;
mod map;
mod pair;
mod part;
mod steps;
mod structs;
mod union;

pub use ild_view::index;
pub use pair::{Seat, is_keyed, key_seat};
pub use part::steps_to;
pub use steps::PartSteps;
