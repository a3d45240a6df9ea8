//! The item of a union's value, made from the item of its member, or its text, made from that of the member: the member's discriminant is
//! put where the union's form has it, and all else is copied as it stands (IPLD Schemas, "Union Representation Strategies"; DAG-CBOR).
#![tactic(auto)]

mod entries;
mod hex;
mod item;
mod part;
mod prefixed;
mod size;
mod text;
mod whole;
mod write;

pub use item::marked;
pub use text::marked_text;
