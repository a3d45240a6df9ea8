//! The pairs of a map that stands as a list or as a text: whether the items are pairs at all, and whether their keys stand once
//! (IPLD Schemas, "listpairs" and "stringpairs").
#![tactic(auto)]

mod apart;
mod judge;
mod keys;
mod shape;

pub use apart::first_pair;
pub use judge::pairs_cause;
pub use keys::repeats_text;
pub use shape::{Shape, shape_of};
