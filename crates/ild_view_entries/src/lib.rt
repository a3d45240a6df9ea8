//! The entries of maps as they stand in a block, form by form: as a map, as a list of pairs, or as the pairs of a text (IPLD
//! Schemas, "Map Representation Strategies").
#![tactic(auto)]

mod count;
mod entries;
mod entry;
mod left;
mod step;

pub use count::{form_count, parts_count};
pub use entries::{form_entries, map_entries};
pub use entry::{form_entry, map_entry};
pub use left::EntriesLeft;
