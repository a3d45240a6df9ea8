//! What the tests of HAMTs have in common: rows of entries, and the nodes of their tries.
#![tactic(auto)]

mod entries;
mod rows;

pub use entries::{
    ABC, CHILD_OF_FOUR, FOUR, ROOT_OF_FOUR, ROOT_OF_THREE, TWO_CHILDREN, built, pseudo_random,
};
pub use rows::{is_above, is_scalar, push, rows_of};
