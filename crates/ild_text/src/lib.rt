//! Texts are split at their delimiters. Each part is a piece of the text, and no memory is taken.
#![tactic(auto)]

mod join;
mod laws;
mod mark;
mod pair;
mod parts;
mod place;
mod prefixes;
mod split;

pub use join::join_parts;
pub use laws::{joins_are_one, pairs_are_one, prefixes_are_one};
pub use pair::pairs;
pub use parts::{JoinParts, PairParts};
pub use prefixes::{bytes_prefix, prefix};
pub use split::Split;
