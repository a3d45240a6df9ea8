//! The nodes of a HAMT on a key's way (IPLD HashMap): read, and what they tell of the key.
#![tactic(auto)]

mod descending;
mod ending;
mod hashing;
mod reaching;
mod reading;
mod rewriting;
mod trail;

pub use descending::descend;
pub use ild_data::{KeyHash, PadKeys, Sha256Keys};
pub use ild_node::HamtFault;
pub use trail::Trail;
