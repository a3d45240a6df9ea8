//! Proofs of what a path leads to in the value under a root: its block and the nodes of HAMTs on the path's way, checked without a store (IPLD HashMap; IPLD Schemas).
#![tactic(auto)]

mod answer;
mod checking;
mod end;
mod entry;
mod fault;
mod following;
mod found;
mod laws;
mod proof;
mod segment;
mod stand;
mod way;
mod writing;

pub use answer::{Answer, Part};
pub use checking::{verify, verify_part};
pub use fault::{Reject, VerifyErr};
pub use laws::proofs_say_one_thing;
pub use proof::Proof;
