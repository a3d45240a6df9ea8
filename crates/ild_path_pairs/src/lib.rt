//! The text of what a struct or a map becomes that stands as the text of its pairs, where a part of it is set, comes or goes (IPLD
//! Schemas, "stringpairs").
#![tactic(auto)]

mod change;
mod form;
mod place;
mod text;

pub use text::pairs_text;
