//! Canonical items inside a block: the check of a block, and a view of its parts without a copy.
#![tactic(auto)]

mod access;
mod block;
mod fault;
mod head;
mod item;
mod items;
mod iterate;
mod kind;
mod laws;
mod node;
mod pairs;
mod part;
mod piece;
mod scalar;
mod search;
mod skip;
mod start;
mod string;
mod why;

pub use block::{check, known_root};
pub use fault::{CborFault, CborKind};
pub use items::Items;
pub use kind::Kind;
pub use laws::{entries_are_parts, faultless_are_spelled, one_tree, spans_spell};
pub use node::Node;
pub use pairs::Pairs;
pub use piece::Piece;
pub use why::{BlockWhy, Why};
