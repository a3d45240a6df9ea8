//! The item of what a holder becomes where an edit changes one of its parts, form by form, or its text, where it stands as one (IPLD
//! Schemas, "Representation Strategies"; DAG-CBOR).
#![tactic(auto)]

mod changed;
mod item;
mod laws;
mod member;
mod text;
mod told;
mod write;

pub use item::new_item;
pub use laws::items_go_up;
pub use text::new_text;
