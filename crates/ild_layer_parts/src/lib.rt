//! The parts of a piece of a block, in the order in which they are checked: the elements of a list, the keys and values of a map
//! in each of its forms, the fields of a struct, the member of a union; and past those first ones of which a kind tells that
//! they are values (IPLD Schemas, "typed nodes").
#![tactic(auto)]

mod behind;
mod elements;
mod entries;
mod field_parts;
mod field_way;
mod fields;
mod leaf;
mod pair_entries;
mod part;
mod parts;
mod past_fields;
mod root;
mod text_entries;

pub use behind::behind_leaves;
pub use elements::Elements;
pub use entries::Entries;
pub use fields::Fields;
pub use leaf::is_leaf;
pub use pair_entries::PairEntries;
pub use part::{Part, value_part};
pub use parts::Parts;
pub use root::RootEntries;
pub use text_entries::TextEntries;
