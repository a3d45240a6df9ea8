//! The way up from the end of a key's way in a HAMT (IPLD HashMap): each node takes the new slot beneath it, a node whose entries a
//! bucket takes becomes that bucket, and the nodes are put, each behind the one beneath it.
#![tactic(auto)]

mod element;
mod exchanging;
mod gathering;
mod lifting;
mod putting;
mod reading;
mod weighing;

pub use gathering::rows_without;
pub use lifting::{climb, few_slot};
pub use putting::put_way;
pub use reading::view_in;
