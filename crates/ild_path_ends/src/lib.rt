//! The end of an edit through HAMTs: what becomes of the innermost value, in its block or at a key of a HAMT in it, is carried outward, and
//! the block of the whole is put last (IPLD Schemas; IPLD HashMap).
#![tactic(auto)]

mod at_key;
mod entry;
mod finish;
mod in_block;
mod innermost;
mod root;

pub use at_key::edit_at_key;
pub use in_block::edit_in_block;
