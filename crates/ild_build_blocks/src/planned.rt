//! The blocks of a value, before any is put.

use ild_data::{NamedBlock, Octets};

/// The block of a representation, and those of the nodes of its HAMTs, each behind its children.
#[derive(Drop)]
pub(crate) struct Planned {
    pub(crate) block: Octets,
    pub(crate) nodes: Vec<NamedBlock>,
}
