//! The fields of a struct inside a block, by their names: the place of a name, what one pass over names with values finds of
//! them, and the first cause for which they are no struct's (IPLD Schemas, "Struct Representation Strategies"). No memory is
//! taken.
#![tactic(auto)]

mod causes;
mod fields;
mod notes;
mod pair;
mod survey;
mod told;

pub use fields::{Fields, is_implicit};
pub use notes::Notes;
pub use pair::Pair;
pub use survey::{note_entries, note_pairs, note_texts};
