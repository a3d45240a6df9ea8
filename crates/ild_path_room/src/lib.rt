//! How much room an edit leaves to a part, and whether it leaves a hole: laws, and the calls that tell it from views; and the slot of a map's values.
#![tactic(auto)]

mod form;
mod hole;
mod laws;
mod room;
mod slot;

pub use form::levels;
pub use hole::{PartMotion, leaves_hole};
pub use laws::rooms_are_left_along_the_path;
pub use room::room_left;
pub use slot::value_slot;
