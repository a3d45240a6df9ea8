//! The text of parts, or of pairs, where one of them is changed (IPLD Schemas, "stringjoin" and "stringpairs").
#![tactic(auto)]

mod change;
mod draft;
mod joints;
mod left;
mod pair;
mod part;

pub use change::PairChange;
pub use joints::{is_joined, is_parted};
pub use pair::change_pair;
pub use part::set_part;
