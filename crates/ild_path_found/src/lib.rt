//! Where an entry of a HAMT stands: the block at the end of its key's way, whatever the nodes on the way are of (IPLD HashMap).
#![tactic(auto)]

mod end;
mod laws;
mod view;

pub use end::end_of;
pub use laws::parts_stand_in_data;
pub use view::block_of;
