//! What is found of a value's HAMTs while it is written.

use ild_data::NamedBlock;

/// The blocks of the nodes, each behind its children, and what stands against them. Both are known only of the whole value.
#[derive(Drop)]
pub struct Nodes {
    pub blocks: Vec<NamedBlock>,
    /// The entries of a HAMT have no trie.
    pub exhausted: bool,
    /// The value of an entry is longer than a block may be.
    pub long: bool,
}
