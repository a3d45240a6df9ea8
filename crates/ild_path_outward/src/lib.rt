//! An edit beneath HAMTs, made from the innermost block outward: each level's new value is set as the entry of the level above (IPLD HashMap).
#![tactic(auto)]

mod levels;
mod step;

pub use ild_path_hop::{block_of_edit, hamt_at, remove_entry, set_entry};
pub use levels::outward;
