//! Where a script starts, and why it can't.
use ild_cbor::BlockWhy;
use ild_data::BlockId;

/// Where a script starts.
#[derive(Clone, Copy, Debug, PartialEq, Eq)]
pub enum Start {
    /// From the value that stands under a block id.
    Root(BlockId),
    /// From the empty value of a map or a list.
    Empty,
}

/// Why a script can't start.
#[derive(Clone, Copy, Debug, PartialEq, Eq)]
pub enum StartFault {
    /// No value stands under the id: this block isn't held, or isn't what has to stand there.
    Block { id: BlockId, why: BlockWhy },
    /// The type is neither a map nor a list, so that it has no empty value.
    Mismatch,
    /// The store failed.
    Store,
    /// Other bytes are kept under the id of the empty value's block.
    Clash(BlockId),
    /// Memory is wanting.
    Memory,
}
