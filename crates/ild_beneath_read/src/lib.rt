//! The children that a block tells stand beneath it, read from its bytes: the blocks to which the nodes in it link (IPLD HashMap, "Element").
#![tactic(auto)]

mod fields;
mod member;
mod node;
mod opened;
mod pair;
mod parts;
mod piece;
mod pushing;
mod telling;

pub use telling::told_children;
