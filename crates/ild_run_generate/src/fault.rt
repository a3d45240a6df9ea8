//! Why the generator ends before its last step.
use ild_cbor::BlockWhy;
use ild_data::BlockId;

/// Why the generator ends before its last step.
#[derive(Clone, Copy)]
pub enum GenerateFault {
    /// A block isn't held, or isn't what has to stand there. A store that tells what it holds never gives this.
    Block { id: BlockId, why: BlockWhy },
    /// The store failed.
    Store,
    /// Other bytes are kept under the id of a block that is to be put.
    Clash(BlockId),
    /// Memory is wanting.
    Memory,
}
