//! The data model: numbers and their numerals, texts, trees, the ids of blocks and the order of keys.
#![tactic(auto)]

mod base32;
mod bits;
mod cid;
mod cid_letters;
mod cid_parts;
mod cid_ref;
mod copy;
mod decimal;
mod fault;
mod hamt_shape;
mod hex;
mod id;
mod int;
mod key;
mod key_hash;
mod laws;
mod limit;
mod list;
mod named_block;
mod path;
mod place;
mod text;
mod tree;
mod varint;

pub use cid::Cid;
pub use cid_letters::{cid_of_text, cid_text};
pub use cid_ref::CidRef;
pub use decimal::{decimal_of, digits_value, natural_of};
pub use fault::{CidFault, TextErr};
pub use hamt_shape::HamtShape;
pub use hex::{hex_byte, is_hex};
pub use id::{BlockId, block_id};
pub use int::Int;
pub use key::{key_less, key_order};
pub use key_hash::{KeyHash, PadKeys, Sha256Keys};
pub use laws::{cids_are_read, spellings_are_apart, texts_are_read};
pub use limit::LONGEST_BLOCK;
pub use list::List;
pub use named_block::NamedBlock;
pub use path::Path;
pub use place::key_place;
pub use text::{Octets, Txt};
pub use tree::{Entries, Tree, Trees};
