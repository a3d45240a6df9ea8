//! Edits at places of a value, through the HAMTs on their paths: a part is set, inserted or deleted, and the blocks of the changed value are
//! put, the root's last (IPLD Schemas; IPLD HashMap).
#![tactic(auto)]

mod answer;
mod edit;
mod fault;
mod laws;
mod parts;

pub use edit::{erase, replace};
pub use fault::EditFault;
pub use ild_path_place::{PathFault, Place, Verb, locate};
pub use laws::places_stay;
