//! What an edit of a last holder changes in the holder's item, made on the bytes of the block in which the item stands (DAG-CBOR).
//!
//! Each of the five changes of a tree is total: an item comes behind the last where the place is past it, an entry that is there gets another
//! value, and where there is no such part, nothing changes. So the calls here ask nothing of the item: where there is no such part, the
//! block is copied as it stands. A change that replaces the whole item for what the holder becomes wants the item of that, which the caller
//! makes; `is_whole` tells such changes.
#![tactic(auto)]

mod apply;
mod inner;
mod place;

pub use apply::{applied, is_whole};
